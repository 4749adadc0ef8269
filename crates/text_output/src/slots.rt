// The lines of a slot.
ghost use Rattle.std.specs.Prelude.{◌≡◌, ◌<◌, ◌+◌, ◌^◌, length, map};
ghost use Rattle.list_facts.specs.Bits.{TellsHeld};
ghost use Rattle.greedy_rules.specs.SlotTable.{flows_from};
ghost use Rattle.greedy_rules.specs.Senders.{AreSendersOf, words_for};
ghost use Rattle.edge_colouring.specs.Cores.{core_in};
ghost use Rattle.text_output.specs.Output.{Passes};
ghost use Rattle.text_output.specs.Text.{text_of, slot_line, flow_list};

use crate::output::{Output, Stop};
use fp_edge::Sink;
use report_text::Numeral;

/// Sources below this have short numbers.
const SHORT: usize = 1_000;

/// The packet of a source in the slot of this number, if it sends one.
fn put_source<K: Sink>(
    output: &mut Output<'_, K>,
    number: &Numeral,
    src: u16,
    to: Option<u16>,
    cores: &[Option<u16>],
) -> Result<(), Stop>
    ensures { Passes output.old output.new
        (text_of (map (slot_line number.now (core_in cores.now)) (flow_list src to))) result }
{
    match to {
        Some(dst) => output.put_slot(number, src, dst, core_at(cores, src)),
        None => Ok(()),
    }
}

/// The core of a source in a row of cores, which names none past its end.
fn core_at(cores: &[Option<u16>], src: u16) -> Option<u16>
    ensures { result ≡ core_in cores.now src }
{
    match cores.get(src as usize) {
        Some(core) => *core,
        None => None,
    }
}

/// The packets of some sources, the first of them `from`, one by one.
fn put_each<K: Sink>(
    output: &mut Output<'_, K>,
    number: &Numeral,
    from: usize,
    row: &[Option<u16>],
    cores: &[Option<u16>],
) -> Result<(), Stop>
    requires { from + length row.now < 2 ^ 16 }
    ensures { Passes output.old output.new
        (text_of (map (slot_line number.now (core_in cores.now)) (flows_from from row.now))) result }
{
    for at in 0..row.len() {
        put_source(output, number, (from + at) as u16, row[at], cores)?;
    }
    Ok(())
}

/// The packets of some sources, the first of them `from`: at once where their numbers are short and each has its place in the
/// row of cores. A bit of `senders` tells of each source whether it sends, the lowest bit of the first one.
fn put_word<K: Sink>(
    output: &mut Output<'_, K>,
    number: &Numeral,
    from: usize,
    row: &[Option<u16>],
    senders: u64,
    cores: &[Option<u16>],
) -> Result<(), Stop>
    requires senders { TellsHeld row.now senders }
    requires sources { from + length row.now < 2 ^ 16 }
    ensures { Passes output.old output.new
        (text_of (map (slot_line number.now (core_in cores.now)) (flows_from from row.now))) result }
{
    if senders == 0 {
        return Ok(());
    }
    let end = from + row.len();
    if end <= SHORT && end <= cores.len() {
        return output.put_packets(number, from, row, senders, cores);
    }
    put_each(output, number, from, row, cores)
}

/// The packets of a row, by source, in the slot of this number; each with its core, where there is a row of cores. There is a word
/// for each 64 sources, with a bit for each that sends, the first one's the lowest.
pub fn put_row<K: Sink>(
    output: &mut Output<'_, K>,
    number: &Numeral,
    row: &[Option<u16>],
    senders: &[u64],
    cores: &[Option<u16>],
) -> Result<(), Stop>
    requires sources { length row.now < 2 ^ 16 }
    requires senders { AreSendersOf (flows_from 0 row.now) senders.now }
    requires words { length senders.now ≡ words_for (length row.now) }
    ensures { Passes output.old output.new
        (text_of (map (slot_line number.now (core_in cores.now)) (flows_from 0 row.now))) result }
{
    for at in 0..senders.len() {
        let from = at * 64;
        let end = row.len().min(from + 64);
        put_word(output, number, from, &row[from..end], senders[at], cores)?;
    }
    Ok(())
}
