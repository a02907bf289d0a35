//! Texts as JSON strings, with the shortest escapes (RFC 8259, "Strings").
ghost use Rattle.std.specs.Prelude.{◌≡◌, ◌++◌, ◌<◌, OnOk, IfErr, true};
ghost use Rattle.std.specs.Char.{digit_char, encode_utf8};
ghost use Rattle.std.specs.List.{flat_map};
ghost use Rattle.std.specs.Str.{encode_utf8_all};
ghost use Rattle.cpi_wire.specs.Text.{is_text};
ghost use Rattle.json.specs.Print.{escape, escape_byte, escape_letter, quoted};
ghost use Rattle.cpi_wire.specs.declared.fault.WireFault.TheVariants.{Memory};

use crate::fault::WireFault;

/// Adds bytes as they are.
pub fn add(bytes: &[u8], out: &mut Vec<u8>) -> Result<(), WireFault>
    ensures ok { OnOk result (out.new.items ≡ out.old.items ++ bytes.now) }
    ensures err { IfErr result (λ fault. fault ≡ Memory) }
{
    out.extend_from_slice(bytes)?;
    Ok(())
}

// The letter of a byte's short escape, or 0 where it has none.
fn escape_letter(byte: u8) -> u8
    ensures { result ≡ escape_letter byte }
{
    match byte {
        b'"' | b'\\' => byte,
        8 => b'b',
        12 => b'f',
        b'\n' => b'n',
        b'\r' => b'r',
        b'\t' => b't',
        _ => 0,
    }
}

fn digit(value: u8) -> u8
    requires { value < 16 }
    ensures { result ≡ digit_char value }
{
    if value < 10 {
        b'0' + value
    } else {
        b'a' + (value - 10)
    }
}

// Adds what stands in a string for a byte.
#[tactic(auto, unfolding(json::specs::Print::escape_byte))]
fn add_escaped(byte: u8, out: &mut Vec<u8>) -> Result<(), WireFault>
    ensures ok { OnOk result (out.new.items ≡ out.old.items ++ escape_byte byte) }
    ensures err { IfErr result (λ fault. fault ≡ Memory) }
{
    let letter = escape_letter(byte);
    if letter > 0 {
        return add(&[b'\\', letter], out);
    }
    if byte < 32 {
        let code = [b'\\', b'u', b'0', b'0', digit(byte / 16), digit(byte % 16)];
        return add(&code, out);
    }
    add(&[byte], out)
}

// Adds what stands in a string for the character of a byte's number.
fn add_char(byte: u8, out: &mut Vec<u8>) -> Result<(), WireFault>
    ensures ok { OnOk result (out.new.items ≡ out.old.items ++ escape (encode_utf8 byte)) }
    ensures err { IfErr result (λ fault. fault ≡ Memory) }
{
    if byte < 128 {
        return add_escaped(byte, out);
    }
    add_escaped(192 + byte / 64, out)?;
    add_escaped(128 + byte % 64, out)
}

fn add_all_escaped(bytes: &[u8], out: &mut Vec<u8>) -> Result<(), WireFault>
    ensures ok { OnOk result (out.new.items ≡ out.old.items ++ escape bytes.now) }
    ensures err { IfErr result (λ fault. fault ≡ Memory) }
{
    for byte in bytes {
        add_escaped(*byte, out)?;
    }
    Ok(())
}

fn add_all_chars(bytes: &[u8], out: &mut Vec<u8>) -> Result<(), WireFault>
    ensures ok { OnOk result (out.new.items ≡ out.old.items ++ flat_map (λ b. escape (encode_utf8 b)) bytes.now) }
    ensures err { IfErr result (λ fault. fault ≡ Memory) }
{
    for byte in bytes {
        add_char(*byte, out)?;
    }
    Ok(())
}

/// Adds bytes that are UTF-8 as a string.
pub fn write_quoted(bytes: &[u8], out: &mut Vec<u8>) -> Result<(), WireFault>
    ensures ok { OnOk result (out.new.items ≡ out.old.items ++ quoted bytes.now) }
    ensures err { IfErr result (λ fault. fault ≡ Memory) }
{
    add(b"\"", out)?;
    add_all_escaped(bytes, out)?;
    add(b"\"", out)
}

/// Adds the string whose characters have the numbers of these bytes.
#[tactic(auto, using(crate::proofs::TextLemmas::bytes_fit))]
pub(crate) fn write_text(bytes: &[u8], out: &mut Vec<u8>) -> Result<(), WireFault>
    ensures ok { OnOk result (out.new.items ≡ out.old.items ++ quoted (encode_utf8_all bytes.now)) }
    ensures fits { OnOk result (is_text bytes.now ≡ true) }
    ensures err { IfErr result (λ fault. fault ≡ Memory) }
{
    add(b"\"", out)?;
    add_all_chars(bytes, out)?;
    add(b"\"", out)
}
