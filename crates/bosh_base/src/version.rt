//! Versions of releases and stemcells, and their order.
ghost use Rattle.std.specs.Prelude.{◌≡◌, ◌↔◌, ◌==◌, ℕ, List, IsTrue, MatchOption, cond, Some, None, option_map, true, false, map, position};
ghost use Rattle.std.specs.Option.{option_copied};
ghost use Rattle.std.specs.Ordering.{ordering_reverse};
ghost use Rattle.std.specs.declared.cmp.Ordering.TheVariants.{Less, Equal};
ghost use Rattle.std.specs.List.{list_all, before_first};
ghost use Rattle.std.specs.Char.{is_ascii_digit};
ghost use Rattle.std.specs.Str.Parse.{digits_value};
ghost use Rattle.bosh_base.specs.Version.{is_number, parts, is_dotted, after, is_suffix, suffix_number, is_version, IsVersion, padded, numbers_of, dev_of, version_order};

use std::cmp::Ordering;

/// A version that was read: its numbers, 0 where it has fewer than eight, and the N of its `+dev.N`.
#[derive(Clone, Copy)]
struct Version {
    numbers: [u64; 8],
    dev: u64,
}

fn are_digits(text: &[u8]) -> bool
    ensures { result ≡ list_all is_ascii_digit text.now }
{
    text.iter().all(|byte| byte.is_ascii_digit())
}

fn is_number(text: &[u8]) -> bool
    ensures { result ≡ is_number text.now }
{
    1 <= text.len() && text.len() <= 18 && are_digits(text)
}

fn number_value(text: &[u8]) -> u64
    requires { IsTrue (is_number text.now) }
    ensures { result ≡ digits_value 10 text.now }
{
    let mut value = 0u64;
    for byte in text {
        value = value * 10 + u64::from(*byte - b'0');
    }
    value
}

fn read_number(text: &[u8]) -> Option<u64>
    ensures { result ≡ cond (is_number text.now) (Some (digits_value 10 text.now)) None }
{
    if is_number(text) {
        Some(number_value(text))
    } else {
        None
    }
}

// The index of the first such byte.
fn place_of(text: &[u8], byte: u8) -> Option<usize>
    ensures { result ≡ position (λ b. b == byte) text.now }
{
    text.iter().position(|b| *b == byte)
}

// What stands before the first such byte, or the whole text, and what stands after it.
fn cut(text: &[u8], byte: u8) -> (&[u8], Option<&[u8]>)
    ensures before { result.0.now ≡ before_first (λ b. b == byte) text.now }
    ensures after { option_copied result.1 ≡ after byte text.now }
{
    match place_of(text, byte) {
        Some(place) => (&text[..place], Some(&text[place + 1..])),
        None => (text, None),
    }
}

fn read_dotted(text: &[u8]) -> Option<[u64; 8]>
    ensures { result ≡ cond (is_dotted text.now) (Some (padded (map (digits_value 10) (parts text.now)))) None }
{
    let mut numbers = [0; 8];
    let mut rest = text;
    for k in 0..8 {
        let (part, others) = cut(rest, b'.');
        numbers[k] = read_number(part)?;
        match others {
            Some(others) => rest = others,
            None => return Some(numbers),
        }
    }
    None
}

fn read_suffix(suffix: Option<&[u8]>) -> Option<u64>
    ensures { let text = option_copied suffix.entry in result ≡ cond (is_suffix text) (Some (suffix_number text)) None }
{
    match suffix {
        Some(text) => read_number(text.strip_prefix(b"dev.".as_slice())?),
        None => Some(0),
    }
}

fn read_version(text: &[u8]) -> Option<Version>
    ensures { MatchOption result (is_version text.now ≡ false)
        (λ version. (is_version text.now ≡ true) × (version.numbers ≡ numbers_of text.now) × (version.dev ≡ dev_of text.now)) }
{
    let (front, suffix) = cut(text, b'+');
    let numbers = read_dotted(front)?;
    let dev = read_suffix(suffix)?;
    Some(Version { numbers, dev })
}

/// Whether a text is a version: 1 to 8 numbers joined by dots, as `1.10`, and after them maybe `+dev.` and
/// a number. A number has 1 to 18 digits.
pub fn is_version(text: &[u8]) -> bool
    ensures { IsTrue result ↔ IsVersion text.now }
{
    read_version(text).is_some()
}

/// How one version stands to another, or nothing where one of the texts is no version. The numbers are
/// compared one by one and then the numbers after `+dev.`; each one that is missing counts as 0.
pub fn version_order(a: &[u8], b: &[u8]) -> Option<Ordering>
    ensures { result ≡ version_order a.now b.now }
{
    let a = read_version(a)?;
    let b = read_version(b)?;
    let by_numbers = a.numbers.as_slice().cmp(b.numbers.as_slice());
    Some(by_numbers.then(a.dev.cmp(&b.dev)))
}

/// The order is total on versions: a version equals itself, two stand to each other as they do when
/// exchanged, and what comes before comes before whatever that comes before.
pub fn version_order_is_total()
    ensures itself { (a : List ℕ) → IsVersion a → version_order a a ≡ Some Equal }
    ensures exchanged { (a b : List ℕ) → version_order b a ≡ option_map ordering_reverse (version_order a b) }
    ensures chain { (a b c : List ℕ) → version_order a b ≡ Some Less → version_order b c ≡ Some Less → version_order a c ≡ Some Less }
    ensures alike { (a b c : List ℕ) → version_order a b ≡ Some Equal → version_order a c ≡ version_order b c }
{}

/// What compares equal is one version: the same eight numbers, counting missing ones as 0, and the same N.
pub fn equal_versions_are_one()
    ensures { (a b : List ℕ) → (version_order a b ≡ Some Equal) ↔ (IsVersion a × IsVersion b × (numbers_of a ≡ numbers_of b) × (dev_of a ≡ dev_of b)) }
{}
