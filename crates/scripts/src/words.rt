//! The lines of an input, and the words of a line: a name, and numbers in decimal, with a space
//! between each two.
ghost use Rattle.bb_memory_traits.specs.Chunk.{IsRegion};
ghost use Rattle.bb_memory_traits.specs.declared.layout.Layout.{Layout};
ghost use Rattle.scripts.specs.Words.{AreWords, IsParty, StartsWith, Words, bounds_numbers, labelled_then, lines_of, list_of, region_of, text_bytes, words, words_then};
ghost use Rattle.std.specs.Fmt.{decimal};
ghost use Rattle.std.specs.Option.{SomeIff};
ghost use Rattle.std.specs.Prelude.{All, IfNone, IfSome, IsTrue, OnOk, Some, [], length, slice_index, ℕ, ◌++◌, ◌<◌, ◌^◌, ◌↔◌, ◌∷◌, ◌≡◌, ◌≢◌};

use bb_memory_traits::layout::Layout;
use bb_memory_traits::region::Region;
use std::alloc::AllocError;
use std::io::Write;

/// The number of parties in scripts of steps.
pub const PARTIES: u32 = 64;

/// Numbers of a line, in their order.
#[derive(Clone, Copy)]
pub enum Numbers {
    Zero,
    One(usize),
    Two(usize, usize),
    Three(usize, usize, usize),
    Four(usize, usize, usize, usize),
    Five(usize, usize, usize, usize, usize),
}

impl Numbers {
    /// Adds a number at the end, if there is room.
    fn with_last(self, last: usize) -> Option<Numbers>
        ensures more { IfSome result (λ more. list_of more ≡ list_of self ++ last ∷ []) }
        ensures full { IfNone result (length (list_of self) ≡ 5) }
    {
        match self {
            Numbers::Zero => Some(Numbers::One(last)),
            Numbers::One(a) => Some(Numbers::Two(a, last)),
            Numbers::Two(a, b) => Some(Numbers::Three(a, b, last)),
            Numbers::Three(a, b, c) => Some(Numbers::Four(a, b, c, last)),
            Numbers::Four(a, b, c, d) => Some(Numbers::Five(a, b, c, d, last)),
            Numbers::Five(..) => None,
        }
    }

    /// Removes the first number, if there is one.
    fn split_first(self) -> Option<(usize, Numbers)>
        ensures more { IfSome result (λ (first, rest). list_of self ≡ first ∷ list_of rest) }
        ensures none { IfNone result (list_of self ≡ []) }
    {
        match self {
            Numbers::Zero => None,
            Numbers::One(a) => Some((a, Numbers::Zero)),
            Numbers::Two(a, b) => Some((a, Numbers::One(b))),
            Numbers::Three(a, b, c) => Some((a, Numbers::Two(b, c))),
            Numbers::Four(a, b, c, d) => Some((a, Numbers::Three(b, c, d))),
            Numbers::Five(a, b, c, d, e) => Some((a, Numbers::Four(b, c, d, e))),
        }
    }
}

/// Parses the words of a line, or returns `None` if it isn't a name with numbers.
pub fn words(line: &[u8]) -> Option<(&[u8], Numbers)>
    ensures written { IfSome result (λ (name, numbers).
        AreWords (words name.now numbers) line.now) }
    ensures none { IfNone result ((other : Words) → ¬ AreWords other line.now) }
{
    let (name, behind) = split_before(line, b' ');
    let mut numbers = Numbers::Zero;
    let mut rest = behind;
    while !rest.is_empty() {
        let (field, after) = split_before(&rest[1..], b' ');
        let last = number(field)?;
        numbers = numbers.with_last(last)?;
        rest = after;
    }
    Some((name, numbers))
}

/// Cuts off the first line of an input, if a line is left.
pub fn first_line(input: &[u8]) -> Option<(&[u8], &[u8])>
    ensures none { IfNone result (input.now ≡ []) }
    ensures cut { IfSome result (λ (line, rest).
        lines_of input.now ≡ line.now ∷ lines_of rest.now) }
    ensures shorter { IfSome result (λ (_, rest). length rest.now < length input.now) }
{
    if input.is_empty() {
        return None;
    }
    let (line, rest) = split_before(input, b'\n');
    if rest.is_empty() {
        Some((line, rest))
    } else {
        Some((line, &rest[1..]))
    }
}

/// Splits a text before the first byte of this value, or at its end.
fn split_before(text: &[u8], byte: u8) -> (&[u8], &[u8])
    ensures parts { text.now ≡ result.0.now ++ result.1.now }
    ensures first { All (λ b. b ≢ byte) result.0.now }
    ensures rest { StartsWith byte result.1.now }
{
    for index in 0..text.len() {
        if text[index] == byte {
            return (&text[..index], &text[index..]);
        }
    }
    (text, &[])
}

/// Parses a number in decimal, without a sign or a leading zero.
fn number(field: &[u8]) -> Option<usize>
    ensures written { IfSome result (λ n. (n < 2 ^ 64) × (field.now ≡ decimal n)) }
    ensures each { (n : ℕ) → n < 2 ^ 64 → field.now ≡ decimal n → result ≡ Some n }
{
    if !is_plain(field) {
        return None;
    }
    match str::from_utf8(field) {
        Ok(text) => text.parse::<usize>().ok(),
        Err(_) => None,
    }
}

/// Returns whether a field has a byte, no sign, and no leading zero.
fn is_plain(field: &[u8]) -> bool
    ensures { IsTrue result ↔ ((0 < length field.now) × (slice_index field.now 0 ≢ 43)
        × (slice_index field.now 0 ≡ 48 → length field.now ≡ 1)) }
{
    match field.first() {
        None | Some(b'+') => false,
        Some(b'0') => field.len() == 1,
        Some(_) => true,
    }
}

/// A line to write.
#[derive(Clone, Copy)]
pub enum Text {
    /// Only a name.
    Name(&'static [u8]),
    /// A name and numbers.
    Line(&'static [u8], Numbers),
    /// A name and numbers, and that a step was refused with `OutOfMemory`.
    Refused(&'static [u8], Numbers),
}

impl Text {
    /// Adds the text to `line`.
    pub fn write(self, line: &mut Vec<u8>) -> Result<(), AllocError>
        ensures { OnOk result (line.new.items ≡ line.old.items ++ text_bytes self) }
    {
        match self {
            Text::Name(name) => write_words(name, Numbers::Zero, b"\n", line),
            Text::Line(name, numbers) => write_words(name, numbers, b"\n", line),
            Text::Refused(name, numbers) => write_words(
                name,
                numbers,
                b" refused OutOfMemory\n",
                line,
            ),
        }
    }
}

/// Writes a name and numbers, and then a text.
pub fn write_words(
    name: &[u8],
    numbers: Numbers,
    end: &[u8],
    line: &mut Vec<u8>,
) -> Result<(), AllocError>
    ensures { OnOk result (line.new.items ≡ line.old.items ++ words_then name.now numbers end.now) }
{
    line.extend_from_slice(name)?;
    let mut left = numbers;
    while let Some((number, rest)) = left.split_first() {
        write_number(b" ", number, line)?;
        left = rest;
    }
    line.extend_from_slice(end)
}

/// A label, and the figure after it.
#[derive(Clone, Copy)]
pub struct Labelled(pub &'static [u8], pub usize);

/// Writes each label followed by its figure, and then a text.
pub fn write_labelled(
    figures: &[Labelled],
    end: &[u8],
    line: &mut Vec<u8>,
) -> Result<(), AllocError>
    ensures { OnOk result (line.new.items ≡ line.old.items ++ labelled_then figures.now end.now) }
{
    let mut left = figures;
    while let Some((Labelled(label, value), rest)) = left.split_first() {
        write_number(label, *value, line)?;
        left = rest;
    }
    line.extend_from_slice(end)
}

/// Writes a text, and then a number in decimal.
pub fn write_number(label: &[u8], value: usize, line: &mut Vec<u8>) -> Result<(), AllocError>
    ensures { OnOk result (line.new.items ≡ line.old.items ++ (label.now ++ decimal value)) }
{
    line.extend_from_slice(label)?;
    write!(line, "{value}").map_err(|_| AllocError)
}

/// Returns whether `name` is `text`.
pub fn is_word(name: &[u8], text: &[u8]) -> bool
    ensures { IsTrue result ↔ (name.now ≡ text.now) }
{
    name == text
}

/// Returns the layout of `size` and `align` in bytes, if they make one.
pub fn layout(size: usize, align: usize) -> Option<Layout>
    ensures made { IfSome result (λ layout. (layout.size ≡ size) × (layout.align ≡ align)) }
    ensures each { (layout : Layout) → layout.size ≡ size → layout.align ≡ align
        → result ≡ Some layout }
{
    Layout::from_size_align(size, align).ok()
}

/// The region that a header names.
#[derive(Clone, Copy)]
pub struct Bounds {
    pub start: usize,
    pub size: usize,
}

/// Parses `KIND START SIZE`, or returns `None` if the words are others or there is no such region.
pub fn region(kind: &[u8], name: &[u8], numbers: Numbers) -> Option<Bounds>
    ensures written { IfSome result (λ bounds. IsRegion (region_of bounds)
        × (name.now ≡ kind.now) × (numbers ≡ bounds_numbers bounds)) }
    ensures each { (bounds : Bounds) → IsRegion (region_of bounds) → name.now ≡ kind.now
        → numbers ≡ bounds_numbers bounds → result ≡ Some bounds }
{
    match numbers {
        Numbers::Two(start, size) if is_word(name, kind) && Region::can_make(start, size) => {
            Some(Bounds { start, size })
        }
        _ => None,
    }
}

/// Returns the number of a party in scripts of steps, if they have the party.
pub fn party_of(number: usize) -> Option<u32>
    ensures { SomeIff result (IsParty number) number }
{
    if number < PARTIES as usize {
        Some(number as u32)
    } else {
        None
    }
}

/// Returns the number in 32 bits, if it fits.
pub fn to_u32(number: usize) -> Option<u32>
    ensures { SomeIff result (number < 2 ^ 32) number }
{
    u32::try_from(number).ok()
}
