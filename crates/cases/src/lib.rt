// What the programs that run cases share: the next bytes and cells of standard input, hashes, and lines of numbers.
#![tactic(auto)]

ghost use Rattle.std.specs.Prelude.{◌≡◌, ℕ, ◌+◌, ◌*◌, ◌≤◌, ◌<◌, length, map};
ghost use Rattle.std.proofs.Common.{rules};
ghost use Rattle.wire.specs.Wire.{le_at};
ghost use Rattle.cases.specs.First.{at_most, first_few, IsPrefixLen};
ghost use Rattle.cases.specs.Hash.{hash, hash_step};

use std::io;
use std::io::Read;

// The next n bytes of the input, put first, and how many there were: fewer at the input's end, none where there is no room for n. A read that
// fails ends the input.
pub fn fill(rt: &impl Input, bytes: &mut [u8], n: usize) -> usize
    ensures { IsPrefixLen result bytes.new × (result ≤ n) }
{
    if bytes.len() < n {
        return 0;
    }
    let mut input = rt.reader();
    let mut done = 0;
    // A `while`: how many bytes a read gives is not known before.
    while done < n {
        match input.read(&mut bytes[done..n]) {
            Ok(0) | Err(_) => break,
            Ok(more) => done += more,
        }
    }
    done
}

// What `next_u32` answers at the input's end: no u32, but a length that no buffer has, so that filling reads nothing.
pub const END: usize = 4294967296;

pub fn next_u32(rt: &impl Input) -> usize
    ensures { result ≤ 4294967296 }
{
    let mut bytes = [0u8; 4];
    if fill(rt, &mut bytes, 4) < 4 {
        return END;
    }
    wire::u32_at(&bytes, 0) as usize
}

// 0 at the input's end. The result is free: what the input gives no contract can say.
pub fn next_u64(rt: &impl Input) -> u64 {
    let mut bytes = [0u8; 8];
    fill(rt, &mut bytes, 8);
    wire::u64_at(&bytes, 0)
}

// What lent arrays hold: numbers of one to eight little-endian bytes.
pub trait Cell: Copy {
    // The bytes of one.
    ghost SIZE: { ℕ };

    const SIZE: usize;

    ghost value: { Self → ℕ };

    fn read(bytes: &[u8], at: usize) -> Self
        requires { at + SIZE ≤ length bytes.now }
        ensures { value result ≡ le_at SIZE bytes.now at };

    fn value(self) -> u64
        ensures { result ≡ value self };

    ghost sized: { 0 < SIZE };
}

impl Cell for u8 {
    ghost SIZE = { 1 };

    const SIZE: usize = 1;

    ghost value = { λ x. x };

    fn read(bytes: &[u8], at: usize) -> u8 {
        wire::u8_at(bytes, at)
    }

    fn value(self) -> u64 {
        u64::from(self)
    }

    ghost sized = { Prim.search rules };
}

impl Cell for u16 {
    ghost SIZE = { 2 };

    const SIZE: usize = 2;

    ghost value = { λ x. x };

    fn read(bytes: &[u8], at: usize) -> u16 {
        wire::u16_at(bytes, at)
    }

    fn value(self) -> u64 {
        u64::from(self)
    }

    ghost sized = { Prim.search rules };
}

impl Cell for u32 {
    ghost SIZE = { 4 };

    const SIZE: usize = 4;

    ghost value = { λ x. x };

    fn read(bytes: &[u8], at: usize) -> u32 {
        wire::u32_at(bytes, at)
    }

    fn value(self) -> u64 {
        u64::from(self)
    }

    ghost sized = { Prim.search rules };
}

impl Cell for u64 {
    ghost SIZE = { 8 };

    const SIZE: usize = 8;

    ghost value = { λ x. x };

    fn read(bytes: &[u8], at: usize) -> u64 {
        wire::u64_at(bytes, at)
    }

    fn value(self) -> u64 {
        self
    }

    ghost sized = { Prim.search rules };
}

fn read_cells<T: Cell>(cells: &mut [T], bytes: &[u8], n: usize)
    requires { (n ≤ length cells.old) × (n * T.SIZE ≤ length bytes.now) }
{
    for i in 0..n {
        cells[i] = T::read(bytes, i * T::SIZE);
    }
}

// As many bytes as are read at once.
const READ_SIZE: usize = 65536;

// The next n cells, as `fill`; at most as many as 65,536 bytes hold.
pub fn fill_cells<T: Cell>(rt: &impl Input, cells: &mut [T], n: usize) -> usize
    ensures { IsPrefixLen result cells.new × (result ≤ n) }
{
    let size = T::SIZE;
    if cells.len() < n || READ_SIZE / size < n {
        return 0;
    }
    let mut bytes = [0u8; READ_SIZE];
    let got = fill(rt, &mut bytes, n * size) / size;
    read_cells(cells, &bytes, got);
    got
}

fn at_most(n: usize, most: usize) -> usize
    ensures { (result ≡ at_most n most) × (result ≤ most) }
{
    if most < n { 0 } else { n }
}

// The first n, where there are so many; else none.
pub fn first<T>(s: &mut [T], n: usize) -> &mut [T]
    ensures { result.now ≡ first_few n s.old }
{
    let n = at_most(n, s.len());
    &mut s[0..n]
}

fn hash_step(h: u64, v: u64) -> u64
    requires { h < 4294967291 }
    ensures { (result ≡ hash_step h v) × (result < 4294967291) }
{
    (h * 31 + v % 4294967291 + 7) % 4294967291
}

pub fn hash<T: Cell>(s: &[T]) -> u64
    ensures { result ≡ hash (map T.value s.now) }
{
    let mut h = 0;
    for x in s {
        h = hash_step(h, x.value());
    }
    h
}

// Each number and a space: what is written, and whether it could be, no contract can say.
pub fn print_words(rt: &impl Print, numbers: &[u64]) -> io::Result<()> {
    for number in numbers {
        print!(rt; "{number} ")?;
    }
    Ok(())
}

// The last number and a line end, each other as in `print_words`: what is written no contract can say.
pub fn print_line(rt: &impl Print, numbers: &[u64]) -> io::Result<()> {
    if let Some((last, words)) = numbers.split_last() {
        print_words(rt, words)?;
        print!(rt; "{last}")?;
    }
    println!(rt;)
}

// The first n bytes of a text, where there are so many; else nothing: what is written no contract can say.
pub fn print_first(rt: &impl Print, text: &[u8], n: usize) -> io::Result<()> {
    if n <= text.len() {
        rt.write_all(&text[0..n])?;
    }
    Ok(())
}
