// Plain decimal numbers and lower-case hexadecimal: written to a place of lent memory, and read there.
#![tactic(auto)]

ghost use Rattle.std.specs.Prelude.{◌≡◌, true, ◌+◌, ◌-◌, ◌*◌, ◌≤◌, ◌<◌, [], ◌∷◌, length, drop, replicate};
ghost use Rattle.text.specs.Letters.{blank};
ghost use Rattle.text.specs.Decimal.{is_plain, digits, right_in, left_in};
ghost use Rattle.text.specs.Reading.{digit_run, capped_reading, read_decimal};
ghost use Rattle.text.specs.Field.{field, read_field};
ghost use Rattle.text.specs.Hexadecimal.{hex_text, all_hex, octets_of};
ghost use Rattle.text.specs.Place.{written_at, place_exit, place, hex_exit, are_letters, read_hex};

use letters::{digit_letter, digit_value, hex_letter, hex_value, is_digit, is_hex};
use refusal::Refusal;

mod letters;

pub fn decimal_length(n: u64) -> usize
    ensures { result ≡ length (digits n) }
{
    let mut k: usize = 1;
    let mut rest = n;
    while rest >= 10 {
        rest /= 10;
        k += 1;
    }
    k
}

// Writes n at a place.
pub fn write_decimal(n: u64, out: &mut [u8], at: usize) -> Result<usize, Refusal>
    ensures { place_exit out.new result ≡ place out.old at (digits n) }
{
    let room = out.len().saturating_sub(at);
    if room < decimal_length(n) {
        return Err(Refusal::Full);
    }
    let next = write_decimal_unchecked(n, out, at);
    Ok(next)
}

// Writes a word at a place.
pub fn write_word(word: &[u8], out: &mut [u8], at: usize) -> Result<usize, Refusal>
    ensures { place_exit out.new result ≡ place out.old at word.now }
{
    if out.len() < at {
        return Err(Refusal::Full);
    }
    let room = out.len() - at;
    if room < word.len() {
        return Err(Refusal::Full);
    }
    let next = write_word_unchecked(word, out, at);
    Ok(next)
}

// Writes n at the right end of a column that starts at a place. A number wider than the column takes its own width.
pub fn write_right(n: u64, width: usize, out: &mut [u8], at: usize) -> Result<usize, Refusal>
    ensures { place_exit out.new result ≡ place out.old at (right_in width (digits n)) }
{
    let room = out.len().saturating_sub(at);
    if room < right_length(n, width) {
        return Err(Refusal::Full);
    }
    let next = write_right_unchecked(n, width, out, at);
    Ok(next)
}

// Reads the plain decimal number up to max that starts at a place and ends before the first letter that is no digit.
pub fn read_decimal(s: &[u8], at: usize, max: u64) -> Option<(u64, usize)>
    ensures { result ≡ read_decimal s.now at max }
{
    if starts_plain(s, at) {
        return read_run(s, at, max);
    }
    None
}

// Reads a number up to max at a place and the letter after it.
pub fn read_field(s: &[u8], at: usize, max: u64, letter: u8) -> Option<(u64, usize)>
    ensures { result ≡ read_field s.now at max letter }
{
    let (n, next) = read_decimal(s, at, max)?;
    if s.len() <= next {
        return None;
    }
    let b = s[next];
    if b != letter {
        return None;
    }
    Some((n, next + 1))
}

// Writes octets in hexadecimal at a place.
pub fn write_hex(src: &[u8], out: &mut [u8], at: usize) -> Result<usize, Refusal>
    ensures { place_exit out.new result ≡ place out.old at (hex_text src.now) }
{
    if out.len() < at {
        return Err(Refusal::Full);
    }
    let room = (out.len() - at) / 2;
    if room < src.len() {
        return Err(Refusal::Full);
    }
    let next = at + src.len() * 2;
    write_hex_unchecked(src, &mut out[at..next]);
    Ok(next)
}

// Reads count octets from letters at a place into the front of out.
pub fn read_hex(s: &[u8], at: usize, count: usize, out: &mut [u8]) -> Result<Option<usize>, Refusal>
    ensures { hex_exit out.new result ≡ read_hex s.now at count out.old }
{
    if !are_letters(s, at, count) {
        return Ok(None);
    }
    if out.len() < count {
        return Err(Refusal::Full);
    }
    let next = at + count * 2;
    read_hex_unchecked(&s[at..next], &mut out[..count]);
    Ok(Some(next))
}

// Whether each letter is hexadecimal, lower-case.
pub fn is_hex_text(s: &[u8]) -> bool
    ensures { result ≡ all_hex s.now }
{
    s.iter().all(|b| is_hex(*b))
}

pub fn fill_blanks(part: &mut [u8])
    ensures { part.new ≡ replicate (length part.old) blank }
{
    part.fill(b' ');
}

// Writes one octet at a place, as a letter between two numbers.
pub fn write_octet_unchecked(b: u8, out: &mut [u8], at: usize) -> usize
    requires { at < length out.old }
    ensures { (result ≡ at + 1) × (out.new ≡ written_at out.old at (b ∷ [])) }
{
    out[at] = b;
    at + 1
}

pub fn write_decimal_unchecked(n: u64, out: &mut [u8], at: usize) -> usize
    requires { at + length (digits n) ≤ length out.old }
    ensures { (result ≡ at + length (digits n))
        × (out.new ≡ written_at out.old at (digits n)) }
{
    let k = decimal_length(n);
    let next = at + k;
    fill_decimal_unchecked(n, &mut out[at..next]);
    next
}

pub fn write_word_unchecked(word: &[u8], out: &mut [u8], at: usize) -> usize
    requires { at + length word.now ≤ length out.old }
    ensures { (result ≡ at + length word.now)
        × (out.new ≡ written_at out.old at word.now) }
{
    let next = at + word.len();
    octets::copy_unchecked(word, &mut out[at..next]);
    next
}

// Writes a number at a place and the letter after it.
pub fn write_field_unchecked(n: u64, letter: u8, out: &mut [u8], at: usize) -> usize
    requires { at + length (field n letter) ≤ length out.old }
    ensures { (result ≡ at + length (field n letter))
        × (out.new ≡ written_at out.old at (field n letter)) }
{
    let next = write_decimal_unchecked(n, out, at);
    write_octet_unchecked(letter, out, next)
}

pub fn write_right_unchecked(n: u64, width: usize, out: &mut [u8], at: usize) -> usize
    requires { at + length (right_in width (digits n)) ≤ length out.old }
    ensures { (result ≡ at + length (right_in width (digits n)))
        × (out.new ≡ written_at out.old at (right_in width (digits n))) }
{
    let next = at + right_length(n, width);
    fill_right_unchecked(n, &mut out[at..next]);
    next
}

// Writes octets as letters over all of part.
pub fn write_hex_unchecked(src: &[u8], part: &mut [u8])
    requires { length part.old ≡ length src.now * 2 }
    ensures { part.new ≡ hex_text src.now }
{
    for (i, b) in src.iter().enumerate() {
        let j = i * 2;
        part[j] = hex_letter(*b / 16);
        part[j + 1] = hex_letter(*b % 16);
    }
}

// Reads the octets that the letters of part name over all of dst.
pub fn read_hex_unchecked(part: &[u8], dst: &mut [u8])
    requires { (length part.now ≡ length dst.old * 2) × (all_hex part.now ≡ true) }
    ensures { dst.new ≡ octets_of part.now }
{
    for i in 0..dst.len() {
        let j = i * 2;
        let high = hex_value(part[j]);
        let low = hex_value(part[j + 1]);
        dst[i] = high * 16 + low;
    }
}

// Writes n over all of part, from its last digit on.
pub fn fill_decimal_unchecked(n: u64, part: &mut [u8])
    requires { length part.old ≡ length (digits n) }
    ensures { part.new ≡ digits n }
{
    let mut rest = n;
    for i in (0..part.len()).rev() {
        part[i] = digit_letter(rest % 10);
        rest /= 10;
    }
}

// Writes n over the end of part, and blanks over the rest.
pub fn fill_right_unchecked(n: u64, part: &mut [u8])
    requires { length (digits n) ≤ length part.old }
    ensures { part.new ≡ right_in (length part.old) (digits n) }
{
    let start = part.len() - decimal_length(n);
    fill_blanks(&mut part[..start]);
    fill_decimal_unchecked(n, &mut part[start..]);
}

// Writes a word over the front of part, and blanks over the rest.
pub fn fill_left_unchecked(word: &[u8], part: &mut [u8])
    requires { length word.now ≤ length part.old }
    ensures { part.new ≡ left_in (length part.old) word.now }
{
    let start = word.len();
    octets::copy_unchecked(word, &mut part[..start]);
    fill_blanks(&mut part[start..]);
}

// Whether two letters for each of count octets stand at a place.
fn are_letters(s: &[u8], at: usize, count: usize) -> bool
    ensures { result ≡ are_letters s.now at count }
{
    if s.len() < at {
        return false;
    }
    let room = (s.len() - at) / 2;
    if room < count {
        return false;
    }
    let next = at + count * 2;
    is_hex_text(&s[at..next])
}

fn right_length(n: u64, width: usize) -> usize
    ensures { result ≡ length (right_in width (digits n)) }
{
    width.max(decimal_length(n))
}

// Whether the digits at a place are a number without leading zeros.
fn starts_plain(s: &[u8], at: usize) -> bool
    ensures { result ≡ is_plain (digit_run (drop at s.now)) }
{
    if s.len() <= at {
        return false;
    }
    let a = s[at];
    if !is_digit(a) {
        return false;
    }
    if a != b'0' {
        return true;
    }
    let next = at + 1;
    if s.len() <= next {
        return true;
    }
    let b = s[next];
    !is_digit(b)
}

// Reads the digits at a place, as many as there are, as a number up to max.
fn read_run(s: &[u8], at: usize, max: u64) -> Option<(u64, usize)>
    ensures { result ≡ capped_reading max (digit_run (drop at s.now)) at }
{
    let mut sum: u64 = 0;
    for i in at..s.len() {
        let b = s[i];
        if !is_digit(b) {
            return Some((sum, i));
        }
        let d = digit_value(b);
        if max / 10 < sum {
            return None;
        }
        let tens = sum * 10;
        if max - tens < d {
            return None;
        }
        sum = tens + d;
    }
    // A place past the end is given back as it is.
    Some((sum, at.max(s.len())))
}
