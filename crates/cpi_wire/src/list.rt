ghost use Rattle.std.specs.Prelude.{◌≡◌, ◌++◌, true, OnOk, IfErr};
ghost use Rattle.serde_json.specs.View.{items_view, view};
ghost use Rattle.serde_json.specs.Written.{compact_text, items_text};
ghost use Rattle.cpi_wire.specs.List.{each_from, is_list, items_data, list_data, list_from};
ghost use Rattle.cpi_wire.specs.Reading.{Gives};
ghost use Rattle.cpi_wire.specs.declared.fault.WireFault.TheVariants.{Memory};

use crate::fault::WireFault;
use crate::fields::write_next;
use crate::wired::Wired;
use crate::write::add;
use bosh_base::{Digest, Key, Mark, NetAddr, Placed, Seq};
use serde_json::Value;
use std::alloc::Global;

// Adds items after the first one, each after a comma, and the bracket that closes the list.
fn write_others<T: Wired>(items: &[T], out: &mut Vec<u8>) -> Result<(), WireFault>
    ensures ok { OnOk result (out.new.items ≡ out.old.items ++ items_text true (items_data T.image items.now)) }
    ensures fits { OnOk result (is_list T.fits items.now ≡ true) }
    ensures err { IfErr result (λ fault. fault ≡ Memory) }
{
    for item in items {
        write_next(item, out)?;
    }
    add(b"]", out)
}

fn write_list<T: Wired>(items: &[T], out: &mut Vec<u8>) -> Result<(), WireFault>
    ensures ok { OnOk result (out.new.items ≡ out.old.items ++ compact_text (list_data T.image items.now)) }
    ensures fits { OnOk result (is_list T.fits items.now ≡ true) }
    ensures err { IfErr result (λ fault. fault ≡ Memory) }
{
    add(b"[", out)?;
    match items {
        [] => add(b"]", out),
        [first, others @ ..] => {
            first.write(out)?;
            write_others(others, out)
        }
    }
}

fn read_each<T: Wired>(alloc: Global, values: &[Value]) -> Result<Seq<T>, WireFault>
    ensures { Gives result (each_from T.reading (items_view values.now)) }
{
    let mut items = Vec::new(alloc);
    for value in values {
        items.push(T::read(alloc, value)?)?;
    }
    Ok(Seq::from(items))
}

fn read_list<T: Wired>(alloc: Global, value: &Value) -> Result<Seq<T>, WireFault>
    ensures { Gives result (list_from T.reading (view value.now)) }
{
    match value.as_array() {
        Some(values) => read_each(alloc, values.as_slice()),
        None => Err(WireFault::NotAValue),
    }
}

impl Wired for Seq<u64> {
    ghost use Rattle.cpi_wire.specs.List.{is_list, list_data, list_from};
    ghost use Rattle.cpi_wire.specs.Number.{number_data, is_number, number_from};

    ghost image = { list_data number_data };

    ghost fits = { is_list is_number };

    ghost reading = { list_from number_from };

    fn write(&self, out: &mut Vec<u8>) -> Result<(), WireFault> {
        write_list(self.as_slice(), out)
    }

    fn read(alloc: Global, value: &Value) -> Result<Self, WireFault> {
        read_list(alloc, value)
    }
}

impl Wired for Seq<Digest> {
    ghost use Rattle.cpi_wire.specs.List.{is_list, list_data, list_from};
    ghost use Rattle.cpi_wire.specs.Text.{digest_data, is_digest, digest_from};

    ghost image = { list_data digest_data };

    ghost fits = { is_list is_digest };

    ghost reading = { list_from digest_from };

    fn write(&self, out: &mut Vec<u8>) -> Result<(), WireFault> {
        write_list(self.as_slice(), out)
    }

    fn read(alloc: Global, value: &Value) -> Result<Self, WireFault> {
        read_list(alloc, value)
    }
}

impl Wired for Seq<Key> {
    ghost use Rattle.cpi_wire.specs.List.{is_list, list_data, list_from};
    ghost use Rattle.cpi_wire.specs.Key.{key_data, is_key, key_from};

    ghost image = { list_data key_data };

    ghost fits = { is_list is_key };

    ghost reading = { list_from key_from };

    fn write(&self, out: &mut Vec<u8>) -> Result<(), WireFault> {
        write_list(self.as_slice(), out)
    }

    fn read(alloc: Global, value: &Value) -> Result<Self, WireFault> {
        read_list(alloc, value)
    }
}

impl Wired for Seq<Mark> {
    ghost use Rattle.cpi_wire.specs.List.{is_list, list_data, list_from};
    ghost use Rattle.cpi_wire.specs.Spec.{mark_data, is_mark, mark_from};

    ghost image = { list_data mark_data };

    ghost fits = { is_list is_mark };

    ghost reading = { list_from mark_from };

    fn write(&self, out: &mut Vec<u8>) -> Result<(), WireFault> {
        write_list(self.as_slice(), out)
    }

    fn read(alloc: Global, value: &Value) -> Result<Self, WireFault> {
        read_list(alloc, value)
    }
}

impl Wired for Seq<NetAddr> {
    ghost use Rattle.cpi_wire.specs.List.{is_list, list_data, list_from};
    ghost use Rattle.cpi_wire.specs.Make.{net_addr_data, is_net_addr, net_addr_from};

    ghost image = { list_data net_addr_data };

    ghost fits = { is_list is_net_addr };

    ghost reading = { list_from net_addr_from };

    fn write(&self, out: &mut Vec<u8>) -> Result<(), WireFault> {
        write_list(self.as_slice(), out)
    }

    fn read(alloc: Global, value: &Value) -> Result<Self, WireFault> {
        read_list(alloc, value)
    }
}

impl Wired for Seq<Placed> {
    ghost use Rattle.cpi_wire.specs.List.{is_list, list_data, list_from};
    ghost use Rattle.cpi_wire.specs.Spec.{placed_data, is_placed, placed_from};

    ghost image = { list_data placed_data };

    ghost fits = { is_list is_placed };

    ghost reading = { list_from placed_from };

    fn write(&self, out: &mut Vec<u8>) -> Result<(), WireFault> {
        write_list(self.as_slice(), out)
    }

    fn read(alloc: Global, value: &Value) -> Result<Self, WireFault> {
        read_list(alloc, value)
    }
}
