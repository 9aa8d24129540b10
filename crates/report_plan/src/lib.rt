// The lines of a recorded build: `build`, `scratch`, `blas` and `tlas`.
#![tactic(auto)]

ghost use Rattle.std.specs.Prelude.{◌+◌, ◌*◌, ◌≤◌, ◌<◌, length};
ghost use Rattle.ray_tracing.specs.Layout.{layout};
ghost use Rattle.ray_tracing.specs.Causes.{cause};
ghost use Rattle.ray_tracing.specs.Report.{word-build, word-blas, word-tlas, build_line};
ghost use Rattle.ray_tracing.specs.Sizes.{longest_line};
ghost use Rattle.ray_tracing.specs.Parts.{packages_in, entries_in};
ghost use Rattle.report_text.specs.Put.{Put};
ghost use Rattle.report_plan.specs.Lines.{blas_line, blas_lines_of, tlas_line, tlas_lines_of, recorded_lines, longest_plan};

use ray_tracing::{ENTRY_SIZE, PACKAGE_SIZE};
use report_text::put_line;
use report_words::Refusal;
use wire::u16_at;

// The line of entry i.
fn put_blas_line(entries: &[u8], offsets: &[u64], i: usize, out: &mut [u8], at: usize) -> usize
    requires i_bound { (i < entries_in entries.now) × (i < length offsets.now) }
    requires word_blas_in_bounds { at + longest_line word-blas 2 ≤ length out.old }
    ensures { Put out.old at (blas_line entries.now offsets.now i) result out.new }
{
    let numbers = [u64::from(u16_at(entries, i * ENTRY_SIZE)), offsets[i]];
    put_line(out, at, b"blas", &numbers)
}

fn put_blas_lines(entries: &[u8], offsets: &[u64], out: &mut [u8], at: usize) -> usize
    requires entries_in_bounds { entries_in entries.now ≤ length offsets.now }
    requires word_blas_in_bounds { at + entries_in entries.now * longest_line word-blas 2 ≤ length out.old }
    ensures { Put out.old at
        (blas_lines_of entries.now offsets.now 0 (entries_in entries.now))
        result out.new }
{
    let mut end = at;
    for i in 0..entries.len() / ENTRY_SIZE {
        end = put_blas_line(entries, offsets, i, out, end);
    }
    end
}

// The line of package p.
fn put_tlas_line(
    packages: &[u8],
    offsets: &[u64],
    ranges: &[u64],
    p: usize,
    out: &mut [u8],
    at: usize,
) -> usize
    requires p_bound { (p < packages_in packages.now) × ((p < length offsets.now) × (2 * p + 1 < length ranges.now)) }
    requires word_tlas_in_bounds { at + longest_line word-tlas 4 ≤ length out.old }
    ensures { Put out.old at (tlas_line packages.now offsets.now ranges.now p)
        result out.new }
{
    let numbers = [
        u64::from(u16_at(packages, p * PACKAGE_SIZE)),
        offsets[p],
        ranges[2 * p],
        ranges[2 * p + 1],
    ];
    put_line(out, at, b"tlas", &numbers)
}

fn put_tlas_lines(
    packages: &[u8],
    offsets: &[u64],
    ranges: &[u64],
    out: &mut [u8],
    at: usize,
) -> usize
    requires packages_in_bounds { (packages_in packages.now ≤ length offsets.now)
        × (packages_in packages.now * 2 ≤ length ranges.now) }
    requires word_tlas_in_bounds { at + packages_in packages.now * longest_line word-tlas 4 ≤ length out.old }
    ensures { Put out.old at
        (tlas_lines_of packages.now offsets.now ranges.now 0 (packages_in packages.now))
        result out.new }
{
    let mut end = at;
    for p in 0..packages.len() / PACKAGE_SIZE {
        end = put_tlas_line(packages, offsets, ranges, p, out, end);
    }
    end
}

// The line `build`, whose numbers are 0 where nothing is refused.
pub fn put_build_line(out: &mut [u8], v: Refusal) -> usize
    requires { longest_line word-build 6 ≤ length out.old }
    ensures { Put out.old 0 (build_line v.e v.f (cause v.number v.x v.y v.z))
        result out.new }
{
    let numbers = [v.number, v.e, v.f, v.x, v.y, v.z];
    put_line(out, 0, b"build", &numbers)
}

// The lines below it, if the build is recorded, with its scratch size.
pub fn put_plan(
    scratch: Option<u64>,
    entries: &[u8],
    packages: &[u8],
    blas_offsets: &[u64],
    tlas_offsets: &[u64],
    staging_ranges: &[u64],
    out: &mut [u8],
    at: usize,
) -> usize
    requires entries_bound { (entries_in entries.now ≤ (layout 5).most) × (packages_in packages.now ≤ (layout 7).most) }
    requires entries_in_bounds { entries_in entries.now ≤ length blas_offsets.now }
    requires packages_in_bounds { packages_in packages.now ≤ length tlas_offsets.now }
    requires packages_in_bounds_2 { (packages_in packages.now * 2 ≤ length staging_ranges.now)
        × (at + longest_plan ≤ length out.old) }
    ensures { Put out.old at
        (recorded_lines scratch entries.now packages.now blas_offsets.now tlas_offsets.now staging_ranges.now)
        result out.new }
{
    let Some(size) = scratch else {
        return at;
    };
    let end = put_line(out, at, b"scratch", &[size]);
    let next = put_blas_lines(entries, blas_offsets, out, end);
    put_tlas_lines(packages, tlas_offsets, staging_ranges, out, next)
}
