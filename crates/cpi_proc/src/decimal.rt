ghost use Rattle.std.specs.Prelude.{◌≡◌, decimal};
ghost use Rattle.std.specs.Str.{bytes_eq};
ghost use Rattle.cpi_wire.specs.Reading.{Gives};
ghost use Rattle.cpi_proc.specs.Decimal.{number_in, small_in};

use cpi_wire::WireFault;

fn is_decimal(number: u64, text: &str) -> bool
    ensures { result ≡ bytes_eq (decimal number) text.now }
{
    let mut digits = itoa::Buffer::new();
    digits.format(number) == text
}

/// The number of 64 bits that a text spells in decimal, with no sign and no leading zero.
pub(crate) fn number_in(text: &str) -> Result<u64, WireFault>
    ensures { Gives result (number_in text.now) }
{
    match text.parse::<u64>() {
        Ok(number) if is_decimal(number, text) => Ok(number),
        _ => Err(WireFault::NotAValue),
    }
}

/// The same of 32 bits.
pub(crate) fn small_in(text: &str) -> Result<u32, WireFault>
    ensures { Gives result (small_in text.now) }
{
    let number = number_in(text)?;
    if number > u64::from(u32::MAX) {
        return Err(WireFault::NotAValue);
    }
    Ok(number as u32)
}
