// What the programs share that replay answers of the Rust: the one form of their input and of their answers.
//
// A case is a line: a letter, then numbers, then bytes where the letter takes some, with a blank before each. Numbers
// are decimal and below 2^64; the bytes are `x` and two hexadecimal digits for each, 2,048 at most. A double is the
// number of its bits. A line that starts with '#' is a comment. The answer is a line too: the letter, then words,
// numbers and bytes, with a blank before each. Bytes are printed as they are read; of more than 2,048 the answer has
// their number, `crc32` and their CRC-32 (IEEE 802.3, reflected) in hexadecimal.
// Any other line is answered by `bad line`, and an input that fills its buffer by `input too long`.
#![tactic(auto)]

ghost use Rattle.std.specs.Prelude.{◌≤◌, ◌<◌, length};
ghost use Rattle.std.specs.Io.{ReadsAtMost};
ghost use Rattle.std.specs.Iterator.{at_most};
ghost use Rattle.replay_io.specs.Counts.{IsPrefixLen};

use refusal::Refusal;
use std::io;
use std::io::{Read, Write};

// A line's letter, its numbers, and where its bytes start.
#[derive(Clone, Copy)]
pub struct Fields {
    pub letter: u8,
    pub values: [u64; 12],
    pub count: usize,
    bytes_at: usize,
    good: bool,
}

// A number, where the digits make one, and where the next one starts.
#[derive(Clone, Copy)]
struct Number {
    value: Option<u64>,
    next: usize,
}

fn read_fields(line: &[u8]) -> Fields {
    let mut values = [0u64; 12];
    let mut next: usize = 2;
    let mut good = starts(line);
    let mut count: usize = 0;
    for k in 0..12 {
        if no_number(line, next) {
            break;
        }
        let x = read_number(line, next);
        values[k] = x.value.unwrap_or(0);
        next = x.next;
        good = good && x.value.is_some();
        count = k + 1;
    }
    Fields {
        letter: byte(line, 0),
        values,
        count,
        bytes_at: next,
        good: good && ends(line, next),
    }
}

// The byte at i; a blank past the end.
fn byte(line: &[u8], i: usize) -> u8 {
    if i < line.len() { line[i] } else { b' ' }
}

// A letter, and a blank after it.
fn starts(line: &[u8]) -> bool {
    byte(line, 0) != b' ' && byte(line, 1) == b' '
}

fn no_number(line: &[u8], at: usize) -> bool {
    line.len() <= at || line[at] == b'x'
}

// Nothing at `at`, or bytes to the line's end.
fn ends(line: &[u8], at: usize) -> bool {
    line.len() <= at || line[at] == b'x' && hexadecimal(tail(line, at))
}

fn read_number(line: &[u8], at: usize) -> Number {
    let mut value = if byte(line, at) == b' ' {
        None
    } else {
        Some(0)
    };
    let mut next = at;
    for i in at..line.len() {
        let b = line[i];
        next = i + 1;
        if b == b' ' {
            break;
        }
        value = with_digit(value, b);
    }
    Number { value, next }
}

// Ten times the value and the digit, where that is below 2^64.
fn with_digit(value: Option<u64>, b: u8) -> Option<u64> {
    match b {
        b'0'..=b'9' => value?.checked_mul(10)?.checked_add((b - b'0') as u64),
        _ => None,
    }
}

// An even number of hexadecimal digits, 4,096 at most.
fn hexadecimal(digits: &[u8]) -> bool {
    digits.len() <= 4096
        && digits.len() % 2 == 0
        && digits
            .iter()
            .all(|digit| hex_digit(hex_value(*digit)) == *digit)
}

// The line's bytes, as many as `out` has room for; answers how many.
fn read_bytes(line: &[u8], at: usize, out: &mut [u8]) -> usize
    ensures { IsPrefixLen result out.new }
{
    decode(tail(line, at), out)
}

// What stands behind the byte at `at`.
fn tail(line: &[u8], at: usize) -> &[u8] {
    if at < line.len() {
        &line[at + 1..]
    } else {
        &line[..0]
    }
}

// The bytes that the digits make, as many as `out` has room for; answers how many.
fn decode(digits: &[u8], out: &mut [u8]) -> usize
    ensures { IsPrefixLen result out.new }
{
    let most = out.len().min(digits.len() / 2);
    for i in 0..most {
        out[i] = hex_value(digits[2 * i]) * 16 + hex_value(digits[2 * i + 1]);
    }
    most
}

// Two digits for each byte, as many as `out` has room for; answers how many digits.
fn encode(bytes: &[u8], out: &mut [u8]) -> usize
    ensures { IsPrefixLen result out.new }
{
    let most = bytes.len().min(out.len() / 2);
    for i in 0..most {
        out[2 * i] = high_digit(bytes[i]);
        out[2 * i + 1] = low_digit(bytes[i]);
    }
    2 * most
}

// A hexadecimal digit's value; 0 for any other byte.
fn hex_value(c: u8) -> u8
    ensures { result < 16 }
{
    match c {
        b'0'..=b'9' => c - b'0',
        b'a'..=b'f' => c - b'a' + 10,
        _ => 0,
    }
}

fn high_digit(b: u8) -> u8 {
    hex_digit(b / 16)
}

fn low_digit(b: u8) -> u8 {
    hex_digit(b % 16)
}

fn hex_digit(d: u8) -> u8
    requires { d < 16 }
{
    if d < 10 { b'0' + d } else { b'a' + (d - 10) }
}

// Where the line that starts at `from` ends, for a text that goes on there.
pub fn line_end_unchecked(text: &[u8], from: usize) -> usize
    requires { from < length text.now }
    ensures { (from ≤ result) × (result ≤ length text.now) }
{
    match text[from..].iter().position(|b| *b == b'\n') {
        Some(n) => from + n,
        None => text.len(),
    }
}

// The lines of a text, each without its end.
#[derive(Drop)]
pub struct Lines<'a>(&'a [u8]);

impl<'a> Lines<'a> {
    pub fn new(text: &'a [u8]) -> Lines<'a> {
        Lines(text)
    }
}

impl<'a> Iterator for Lines<'a> {
    type Item = &'a [u8];

    ghost remaining = { λ s. at_most (length s.0.now) };

    fn next(&mut self) -> Option<&'a [u8]> {
        let text = self.0;
        if text.is_empty() {
            return None;
        }
        let end = line_end_unchecked(text, 0);
        self.0 = if end < text.len() {
            &text[end + 1..]
        } else {
            &text[end..]
        };
        Some(&text[..end])
    }
}

// The double that has these bits; NaN for each of its patterns.
pub fn real(bits: u64) -> f64 {
    if 9218868437227405312 < bits % 9223372036854775808 {
        return 0.0 / 0.0;
    }
    f64::from_bits(bits)
}

// The lower 32 bits.
pub fn low(n: u64) -> u32 {
    (n % 4294967296) as u32
}

// The first n of a list, or all where there are fewer.
pub fn prefix<T>(list: &[T], n: usize) -> &[T] {
    &list[..n.min(list.len())]
}

pub fn prefix_mut<T>(list: &mut [T], n: usize) -> &mut [T] {
    let n = n.min(list.len());
    &mut list[..n]
}

// The bytes from `from` to below `to`; none where there are no such.
pub fn part(bytes: &[u8], from: usize, to: usize) -> &[u8] {
    if from <= to && to <= bytes.len() {
        &bytes[from..to]
    } else {
        &bytes[..0]
    }
}

// CRC-32 (IEEE 802.3, reflected): of "123456789" it is cbf43926.
pub fn crc32(bytes: &[u8]) -> u32 {
    let mut crc: u32 = 0xFFFF_FFFF;
    for byte in bytes {
        crc = crc_byte(crc, *byte);
    }
    !crc
}

fn crc_byte(crc: u32, b: u8) -> u32 {
    crc_four(crc_four(crc ^ (b as u32)))
}

fn crc_four(crc: u32) -> u32 {
    crc_bit(crc_bit(crc_bit(crc_bit(crc))))
}

fn crc_bit(crc: u32) -> u32 {
    if crc % 2 == 0 {
        return crc / 2;
    }
    (crc / 2) ^ 0xEDB8_8320
}

// A buffer for the input. Of an array that a function answers a proof knows the length by its type, and doesn't count
// the elements.
pub fn buffer() -> [u8; 524288] {
    [0u8; 524288]
}

// Reads until `text` is full or the input ends; answers how many bytes it has read.
pub fn read_full(input: &mut impl Read, text: &mut [u8]) -> io::Result<usize>
    ensures { ReadsAtMost result text.new }
{
    let mut done = 0;
    // Not counted: each read says how much it gave.
    while done < text.len() {
        let n = input.read(&mut text[done..])?;
        if n == 0 {
            break;
        }
        done += n;
    }
    Ok(done)
}

// A program that answers lines; it keeps what lasts from one to the next.
pub trait Replay {
    // Prints what stands after the letter of a good line with these bytes.
    fn answer(&mut self, writer: &mut impl Write, f: Fields, bytes: &[u8]) -> io::Result<()>;
}

// Answers the input's lines, one after the other, from the lent buffer: of more than it holds it reads no more.
pub fn answer_lines(
    program: &mut impl Replay,
    text: &mut [u8],
    input: &mut impl Read,
    writer: &mut impl Write,
) -> io::Result<()> {
    let n = read_full(input, text)?;
    if n == text.len() {
        print(writer, b"input too long\n")?;
    }
    for line in Lines::new(&text[..n]) {
        if byte(line, 0) != b'#' {
            answer_line(program, writer, line)?;
        }
    }
    Ok(())
}

fn answer_line(program: &mut impl Replay, writer: &mut impl Write, line: &[u8]) -> io::Result<()> {
    let f = read_fields(line);
    print(writer, &[f.letter])?;
    if f.good {
        let mut bytes = [0u8; 2048];
        let n = read_bytes(line, f.bytes_at, &mut bytes);
        program.answer(writer, f, &bytes[..n])?;
    } else {
        print_bad_line(writer)?;
    }
    print(writer, b"\n")
}

pub fn print_bad_line(writer: &mut impl Write) -> io::Result<()> {
    print(writer, b" bad line")
}

// What an answer is made of: a word or a number with a blank before it, or several.
pub trait Answer: Drop {
    fn print(self, writer: &mut impl Write) -> io::Result<()>;
}

impl Answer for u8 {
    fn print(self, writer: &mut impl Write) -> io::Result<()> {
        write!(writer, " {}", self)
    }
}

impl Answer for u16 {
    fn print(self, writer: &mut impl Write) -> io::Result<()> {
        write!(writer, " {}", self)
    }
}

impl Answer for u32 {
    fn print(self, writer: &mut impl Write) -> io::Result<()> {
        write!(writer, " {}", self)
    }
}

impl Answer for u64 {
    fn print(self, writer: &mut impl Write) -> io::Result<()> {
        write!(writer, " {}", self)
    }
}

impl Answer for usize {
    fn print(self, writer: &mut impl Write) -> io::Result<()> {
        write!(writer, " {}", self)
    }
}

// A word, short as all are here, goes out by one write with its blank.
impl Answer for &str {
    fn print(self, writer: &mut impl Write) -> io::Result<()> {
        let mut text = [b' '; 32];
        let word = self.as_bytes();
        if text.len() <= word.len() {
            return write!(writer, " {}", self);
        }
        let end = 1 + word.len();
        text[1..end].copy_from_slice(word);
        print(writer, &text[..end])
    }
}

// 1 or 0.
impl Answer for bool {
    fn print(self, writer: &mut impl Write) -> io::Result<()> {
        (self as u8).print(writer)
    }
}

// The bits of a number from 0 on.
impl Answer for f64 {
    fn print(self, writer: &mut impl Write) -> io::Result<()> {
        let bits = if self >= 0.0 {
            Some(self.to_bits())
        } else {
            None
        };
        bits.print(writer)
    }
}

impl Answer for () {
    fn print(self, writer: &mut impl Write) -> io::Result<()> {
        "done".print(writer)
    }
}

impl<T: Answer> Answer for Option<T> {
    fn print(self, writer: &mut impl Write) -> io::Result<()> {
        match self {
            Some(x) => x.print(writer),
            None => "none".print(writer),
        }
    }
}

impl<T: Answer> Answer for Result<T, Refusal> {
    fn print(self, writer: &mut impl Write) -> io::Result<()> {
        match self {
            Ok(x) => x.print(writer),
            Err(r) => r.print(writer),
        }
    }
}

// `refused`, its number and its values.
impl Answer for Refusal {
    fn print(self, writer: &mut impl Write) -> io::Result<()> {
        "refused".print(writer)?;
        self.number().print(writer)?;
        let values = self.values();
        if 0 < values.count {
            values.first.print(writer)?;
        }
        if 1 < values.count {
            values.second.print(writer)?;
        }
        Ok(())
    }
}

impl<const N: usize> Answer for [u64; N] {
    fn print(self, writer: &mut impl Write) -> io::Result<()> {
        print_all(writer, &self)
    }
}

// What stands in a list, one after the other.
pub fn print_all<T: Answer + Copy>(writer: &mut impl Write, list: &[T]) -> io::Result<()> {
    for x in list {
        (*x).print(writer)?;
    }
    Ok(())
}

pub fn print_bytes(writer: &mut impl Write, bytes: &[u8]) -> io::Result<()> {
    if 2048 < bytes.len() {
        bytes.len().print(writer)?;
        return print_crc32(writer, bytes);
    }
    let mut text = [0u8; 4096];
    let n = encode(bytes, &mut text);
    print(writer, b" x")?;
    print(writer, &text[..n])
}

pub fn print_crc32(writer: &mut impl Write, bytes: &[u8]) -> io::Result<()> {
    let crc = crc32(bytes);
    write!(writer, " crc32 {crc:08x}")
}

pub fn print(writer: &mut impl Write, text: &[u8]) -> io::Result<()> {
    writer.write_all(text)
}
