// The words of a call's refusal, by the numbers that the call answers: a line of one text, with its letters filled.
#![tactic(auto)]

ghost use Rattle.std.specs.Prelude.{◌≡◌, cond, ◌+◌, ◌≤◌, length, drop};
ghost use Rattle.ray_tracing.specs.Causes.{sheet_number, build_cause, submission_cause};
ghost use Rattle.ray_tracing.specs.Report.{ascii, reported_of, Puts};
ghost use Rattle.ray_tracing.specs.Explain.{kind_words, between, nothing, of_sheet, of_build, of_action};
ghost use Rattle.causes.specs.Figures.{cause_of};
ghost use Rattle.report_text.specs.Put.{Put};
ghost use Rattle.report_words.specs.Refused.{refused_by, words_in, Refuses};
ghost use Rattle.report_words.specs.Longest.{longest_explanation};
ghost use Rattle.report_words.specs.Lines.{number_for, is_number, letter, filled, past_lines, lines};
ghost use Rattle.report_words.specs.Lines.{destroyed_place, reached_place, build_place, unbuilt_place, action_place};
ghost use Rattle.report_words.specs.Lines.{append_place, write_place, open_place, many_place, to_two_place, to_one_place, record_place, line_place};

use causes::{Figures, build_figures, sheet_number, submission_figures};
use ray_tracing::{BuildRefusal, OutputTooShort, SheetRefusal, ValidateAsActionsError};
use report_text::{put, put_byte, put_decimal, put_text};

// The call that refuses, by its number (1 reads a sheet, 2 builds, 3 submits, 4 appends an instance, 5 writes a sheet, 6 opens groups, 7 appends many
// instances, 8 converts a sheet to version 2, 9 to version 1, 10 reads instances back), the refusal's number, place and figures; an action is in E
// and its kind in F, a group in E and its item in F, an instance's position in F, a record in E. Number 0 refuses nothing. The call is a number,
// as in C, where any may stand.
#[derive(Clone, Copy, Default)]
pub struct Refusal {
    pub call: u64,
    pub number: u64,
    pub e: u64,
    pub f: u64,
    pub x: u64,
    pub y: u64,
    pub z: u64,
}

pub fn no_refusal() -> Refusal
    ensures { Refuses result nothing }
{
    Refusal::default()
}

impl From<SheetRefusal> for Refusal {
    ghost from_gives = { λ r v. Refuses v (of_sheet (sheet_number r.error) r.place) };

    fn from(r: SheetRefusal) -> Refusal {
        Refusal {
            call: 1,
            number: sheet_number(r.error),
            e: r.place as u64,
            ..Refusal::default()
        }
    }
}

fn refused_by(call: u64, e: usize, f: usize, cause: Figures) -> Refusal
    ensures { result ≡ refused_by call e f (cause_of cause) }
{
    Refusal {
        call,
        number: cause.number,
        e: e as u64,
        f: f as u64,
        x: cause.first,
        y: cause.second,
        z: cause.third,
    }
}

impl From<BuildRefusal> for Refusal {
    ghost from_gives = { λ r v. Refuses v (of_build r.e0 r.e1 (build_cause r.error)) };

    fn from(r: BuildRefusal) -> Refusal {
        refused_by(2, r.e0, r.e1, build_figures(r.error))
    }
}

pub fn action_refusal(error: ValidateAsActionsError, i: usize, kind: u8) -> Refusal
    ensures { Refuses result (of_action i kind (submission_cause error)) }
{
    refused_by(3, i, usize::from(kind), submission_figures(error))
}

fn put_kind(out: &mut [u8], at: usize, kind: u64) -> usize
    requires { at + 24 ≤ length out.old }
    ensures { Put out.old at (ascii (kind_words kind)) result out.new }
{
    match kind {
        1 => put(out, at, b"recorded build at action"),
        2 => put(out, at, b"use of a Tlas at action"),
        3 => put(out, at, b"mark of a Blas at action"),
        4 => put(out, at, b"mark of a Tlas at action"),
        5 => put(out, at, b"mark as built at action"),
        _ => put(out, at, b"action"),
    }
}

#[tactic(auto, unfolding(crate::specs::Lines::number_for))]
fn number_for(v: Refusal, b: u8) -> u64
    ensures { result ≡ number_for v b }
{
    match b {
        b'#' => v.number,
        b'E' => v.e,
        b'F' => v.f,
        b'X' => v.x,
        b'Y' => v.y,
        _ => v.z,
    }
}

fn is_number(b: u8) -> bool
    ensures { result ≡ is_number b }
{
    matches!(b, b'#' | b'E' | b'F' | b'X' | b'Y' | b'Z')
}

// What a letter stands for; any other byte stands for itself.
#[tactic(auto, unfolding(crate::specs::Lines::letter))]
fn put_letter(out: &mut [u8], at: usize, b: u8, v: Refusal) -> usize
    requires { at + 24 ≤ length out.old }
    ensures { Put out.old at (letter v b) result out.new }
{
    if b == b'K' {
        return put_kind(out, at, v.f);
    }
    if is_number(b) {
        return put_decimal(out, at, number_for(v, b));
    }
    put_byte(out, at, b)
}

// The text's first line, with its newline.
fn put_filled(out: &mut [u8], at: usize, text: &[u8], v: Refusal) -> usize
    requires { at + length (filled v text.now) + 24 ≤ length out.old }
    ensures { Put out.old at (filled v text.now) result out.new }
{
    let mut end = at;
    for &b in text {
        end = put_letter(out, end, b, v);
        if b == b'\n' {
            break;
        }
    }
    end
}

// Where the text's line n begins.
fn line_start(text: &[u8], n: usize) -> usize
    ensures { (result ≤ length text.now) × (drop result text.now ≡ past_lines n text.now) }
{
    let mut left = n;
    for (k, &b) in text.iter().enumerate() {
        if left == 0 {
            return k;
        }
        if b == b'\n' {
            left -= 1;
        }
    }
    text.len()
}

fn put_line_of(out: &mut [u8], at: usize, text: &[u8], n: usize, v: Refusal) -> usize
    requires { at + length (filled v (past_lines n text.now)) + 24 ≤ length out.old }
    ensures { Put out.old at (filled v (past_lines n text.now)) result out.new }
{
    let start = line_start(text, n);
    put_filled(out, at, &text[start..], v)
}

fn put_line(out: &mut [u8], at: usize, n: usize, v: Refusal) -> usize
    requires { at + length (filled v (past_lines n lines)) + 24 ≤ length out.old }
    ensures { Put out.old at (filled v (past_lines n lines)) result out.new }
{
    let lines = b"nothing is refused
refused #: no such cause
refused 1: version neither 1 nor 2, byte E
refused 2: sheet ends early, byte E
refused 3: bytes after the sheet, byte E
refused 4: count above its limit, byte E
refused 5: value outside its field, byte E
refused 4: count above its limit, section E, record F
refused 5: value outside its field, section E, record F
refused 6: id outside its table, entry or package E, geometry or slot F
refused 10: kind mismatch, entry E, geometry F
refused 11: more geometries than declared, entry E, geometry F
refused 12: flags differ, entry E, geometry F, declared X, given Y
refused 13: vertex count above declared, entry E, geometry F, declared X, given Y
refused 14: vertex format differs, entry E, geometry F, declared X, given Y
refused 15: stride below least, entry E, geometry F, needed X, given Y
refused 16: stride not a multiple, entry E, geometry F, needed X, given Y
refused 17: index count on one side only, entry E, geometry F
refused 18: index count above declared, entry E, geometry F, declared X, given Y
refused 19: index format differs, entry E, geometry F, declared X, given Y
refused 20: index count declared, no index buffer, entry E, geometry F
refused 21: destroyed, entry E, geometry F, buffer Y
refused 22: no BLAS_INPUT, entry E, geometry F, buffer Y
refused 23: region overruns buffer, entry E, geometry F, offset X, region Y, size Z
refused 24: first index, index count or transform offset absent, entry E, geometry F
refused 25: index format none, entry E, geometry F
refused 26: product or offset above 2^32 - 1, entry E, geometry F, offset X, count Y, stride Z
refused 27: index count not in threes, entry E, geometry F, count X
refused 28: transform unflagged, entry E, geometry F
refused 29: transform offset not in 16s, entry E, geometry F
refused 30: transform flagged, absent, entry E, geometry F
refused 31: box count above declared, entry E, geometry F, declared X, given Y
refused 32: box offset not in eights, entry E, geometry F
refused 33: box stride below 24 or not in eights, entry E, geometry F, stride X
refused 34: custom data from 2^24 on, package E, slot F
refused 35: Tlas returns vertices, Blas does not, package E, slot F
refused 36: too many present slots, package E, count X, most Y
refused 37: scratch 2^64 - 1, entry or package E
refused 38: compacted Blas, entry E
refused 39: lent output too short
refused 21: destroyed, entry E, Blas Y
refused 21: destroyed, package E, Tlas Y
refused 21: destroyed, entry E, geometry F, resource Y
refused 4: count above its limit, K E
refused 5: value outside its field, K E
refused 6: id outside its table, K E
refused 21: destroyed, K E, Blas X
refused 39: lent output too short, K E
refused 40: counter 0, K E
refused 41: Blas to build is compacted, K E, Blas X
refused 42: Blas without number, K E, Blas X, Tlas Y
refused 43: Tlas without number, K E, Tlas X
refused 44: Blas newer than Tlas, K E, Blas X, Tlas Y
refused 42: Blas without number, K E, Tlas X, Blas Y
refused 42: Blas without number, K E, Blas or Tlas X, Tlas or Blas Y
refused 6: id outside its table
refused 34: custom data from 2^24 on
refused 35: Tlas returns vertices, Blas does not
refused 39: lent output too short
refused 45: count 0, or a group that is not an earlier one, group E, item F
refused 46: more than 512 slots, group E, item F
refused 5: value outside its field, instance F
refused 6: id outside its table, instance F
refused 34: custom data from 2^24 on, instance F
refused 35: Tlas returns vertices, Blas does not, instance F
refused 6: id outside its table, Tlas or instance F
refused 37: scratch 2^64 - 1, entry E
refused 37: scratch 2^64 - 1, package E
refused 1: version not 1, byte E
refused 1: version not 2, byte E
refused 47: first vertex or primitive offset above 2^32 - 1, byte E
refused 48: length not in 64s
refused 49: u32 at byte 52 not 0, record E
refused 50: address of no Blas or of several, record E
";
    put_line_of(out, at, lines, n, v)
}

// Which of those lines: 1 for a number that the call does not refuse with.

// n and so many more, if n is from a to b.
fn shifted(n: u64, a: u64, b: u64, by: usize, other: usize) -> usize
    requires { (b ≤ 64) × (by ≤ 64) }
    ensures { result ≡ cond (between a b n) (n + by) other }
{
    if a <= n && n <= b {
        n as usize + by
    } else {
        other
    }
}

// By the sort.
fn destroyed_place(sort: u64) -> usize
    ensures { result ≡ destroyed_place sort }
{
    match sort {
        1 => 21,
        2 => 40,
        3 => 41,
        _ => 42,
    }
}

// By whose total it is.
fn reached_place(figure: u64) -> usize
    ensures { result ≡ reached_place figure }
{
    match figure {
        1 => 66,
        2 => 67,
        _ => 37,
    }
}

fn build_place(n: u64, first: u64) -> usize
    ensures { result ≡ build_place n first }
{
    match n {
        21 => destroyed_place(first),
        37 => reached_place(first),
        _ => shifted(n, 4, 6, 3, shifted(n, 10, 39, 0, 1)),
    }
}

// By the kind: of a Build and of a mark that names lists, of a use, and of none.
fn unbuilt_place(kind: u64) -> usize
    ensures { result ≡ unbuilt_place kind }
{
    match kind {
        1 | 5 => 50,
        2 => 53,
        _ => 54,
    }
}

fn action_place(n: u64, kind: u64) -> usize
    ensures { result ≡ action_place n kind }
{
    match n {
        21 => 46,
        42 => unbuilt_place(kind),
        _ => shifted(n, 4, 6, 39, shifted(n, 39, 44, 8, 1)),
    }
}

fn append_place(n: u64) -> usize
    ensures { result ≡ append_place n }
{
    match n {
        6 => 55,
        39 => 58,
        _ => shifted(n, 34, 35, 22, 1),
    }
}

fn write_place(n: u64) -> usize
    ensures { result ≡ write_place n }
{
    match n {
        39 => 58,
        _ => shifted(n, 1, 5, 1, 1),
    }
}

fn open_place(n: u64) -> usize
    ensures { result ≡ open_place n }
{
    match n {
        39 => 58,
        _ => shifted(n, 45, 46, 14, shifted(n, 2, 5, 1, 1)),
    }
}

// By the position, which of the first one's 6 may be the Tlas's.
fn many_place(n: u64, f: u64) -> usize
    ensures { result ≡ many_place n f }
{
    match (n, f) {
        (6, 0) => 65,
        (39, _) => 58,
        _ => shifted(n, 34, 35, 29, shifted(n, 5, 6, 56, 1)),
    }
}

fn to_two_place(n: u64) -> usize
    ensures { result ≡ to_two_place n }
{
    match n {
        1 => 68,
        _ => write_place(n),
    }
}

fn to_one_place(n: u64) -> usize
    ensures { result ≡ to_one_place n }
{
    match n {
        1 => 69,
        47 => 70,
        _ => write_place(n),
    }
}

fn record_place(n: u64) -> usize
    ensures { result ≡ record_place n }
{
    match n {
        39 => 58,
        _ => shifted(n, 48, 50, 23, 1),
    }
}

fn line_place(call: u64, n: u64, kind: u64, figure: u64) -> usize
    ensures { result ≡ line_place call n kind figure }
{
    match (call, n) {
        (_, 0) => 0,
        (1, _) => shifted(n, 1, 5, 1, 1),
        (2, _) => build_place(n, figure),
        (3, _) => action_place(n, kind),
        (4, _) => append_place(n),
        (5, _) => write_place(n),
        (6, _) => open_place(n),
        (7, _) => many_place(n, kind),
        (8, _) => to_two_place(n),
        (9, _) => to_one_place(n),
        (10, _) => record_place(n),
        _ => 1,
    }
}

// The words of a refusal, where they surely fit.
pub fn put_words(out: &mut [u8], at: usize, v: Refusal) -> usize
    requires { at + longest_explanation + 24 ≤ length out.old }
    ensures { Put out.old at (words_in v) result out.new }
{
    let n = line_place(v.call, v.number, v.f, v.x);
    put_line(out, at, n, v)
}

// The words of a refusal, if they fit into what is lent: no more than 247 bytes are ever needed.
pub fn words(v: Refusal, out: &mut [u8]) -> Result<usize, OutputTooShort>
    ensures { Puts (words_in v) out.old (reported_of result) out.new }
{
    let mut text = [0u8; 271];
    let n = put_words(&mut text, 0, v);
    put_text(out, &text[..n])
}
