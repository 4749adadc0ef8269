ghost use Rattle.std.specs.Prelude.{◌≡◌, ◌≤◌, ◌+◌, [], length, OnOk, IfErr};
ghost use Rattle.list_facts.specs.Bits.{TellsHeld};
ghost use Rattle.report_text.specs.Buffer.{HasRoom, HasRoomFor};
ghost use Rattle.report_text.specs.Lines.{HasName};
ghost use Rattle.report_text.specs.SlotLines.{row_text};
ghost use Rattle.text_output.specs.Content.{sink_content};
ghost use Rattle.text_output.specs.Output.{Passes, EndsText};
ghost use Rattle.text_output.specs.Text.{line_text, entry_line};
ghost use Rattle.text_output.specs.declared.output.Stop.TheVariants.{Memory, Write};

use crate::transfer::write_all;
use fp_edge::{Failed, Sink};
use greedy_rules::Entry;
use no_memory::NoMemory;
use report_text::{Line, LineBuffer, Numeral};
use std::alloc::AllocError;
use std::marker::Model;

/// Why a text ends early.
#[derive(Clone, Copy, Debug, PartialEq, Eq)]
pub enum Stop {
    Write,
    Memory,
}

impl From<AllocError> for Stop {
    ghost from_gives = { λ _ e. e ≡ Memory };

    fn from(_refused: AllocError) -> Self {
        Stop::Memory
    }
}

impl From<NoMemory> for Stop {
    ghost from_gives = { λ _ e. e ≡ Memory };

    fn from(_refused: NoMemory) -> Self {
        Stop::Memory
    }
}

/// Lines on their way to a sink: they are gathered, and all are given to it before there would be too many.
#[derive(Drop)]
pub struct Output<'a, K: Sink> {
    sink: &'a mut K,
    gathered: LineBuffer,
}

impl<'a, K: Sink> Model for Output<'a, K> {
    ghost use Rattle.text_output.specs.Content.{OutputContent, sink_content};

    ghost Value = { OutputContent };

    ghost view = { λ o. record {
      name = o.sink.ghost_name;
      sink = sink_content K.Sink o.sink.now;
      gathered = o.gathered;
    } };
}

impl<'a, K: Sink> Output<'a, K> {
    /// An output over this sink, with what is gathered for it.
    pub fn new(sink: &'a mut K, gathered: LineBuffer) -> Output<'a, K>
        ensures name { result.name ≡ sink.entry.ghost_name }
        ensures told { result.sink ≡ sink_content K.Sink sink.old }
        ensures gathered { result.gathered ≡ gathered }
    {
        Output { sink, gathered }
    }

    /// Its sink, as it was left.
    pub fn into_sink(self) -> &'a mut K
        ensures name { result.ghost_name ≡ self.entry.name }
        ensures told { sink_content K.Sink result.now ≡ self.entry.sink }
    {
        self.sink
    }

    /// Gives what was gathered to the sink.
    fn flush(&mut self) -> Result<(), Stop>
        ensures passes { Passes self.old self.new [] result }
        ensures empty { OnOk result (self.new.gathered ≡ []) }
        ensures err { IfErr result (λ stop. stop ≡ Write) }
    {
        match write_all(self.sink, self.gathered.text()) {
            Ok(()) => {
                self.gathered.clear();
                Ok(())
            }
            Err(Failed) => Err(Stop::Write),
        }
    }

    /// Gives all to the sink where there may be no room for a line more.
    fn make_room(&mut self) -> Result<(), Stop>
        ensures passes { Passes self.old self.new [] result }
        ensures room { OnOk result (HasRoom self.new.gathered) }
        ensures err { IfErr result (λ stop. stop ≡ Write) }
    {
        if self.gathered.has_room() {
            return Ok(());
        }
        self.flush()
    }

    /// Gives all to the sink where there may be no room for so many packets of slots more.
    fn make_room_for(&mut self, packets: usize) -> Result<(), Stop>
        requires { packets ≤ 1000 }
        ensures passes { Passes self.old self.new [] result }
        ensures room { OnOk result (HasRoomFor packets self.new.gathered) }
        ensures err { IfErr result (λ stop. stop ≡ Write) }
    {
        if self.gathered.has_room_for(packets) {
            return Ok(());
        }
        self.flush()
    }

    /// Any line.
    pub fn put_line(&mut self, line: &Line) -> Result<(), Stop>
        requires { HasName line.now }
        ensures { Passes self.old self.new (line_text line.now) result }
    {
        self.make_room()?;
        self.gathered.put_line(line);
        Ok(())
    }

    /// The last line: the sink is given all.
    pub fn put_last_line(&mut self, line: &Line) -> Result<(), Stop>
        requires { HasName line.now }
        ensures { EndsText self.old self.new (line_text line.now) result }
    {
        self.put_line(line)?;
        self.flush()
    }

    /// What a round's batch records of a flow.
    pub fn put_entry(&mut self, round: &Numeral, entry: Entry) -> Result<(), Stop>
        ensures { Passes self.old self.new (line_text (entry_line round.now entry)) result }
    {
        self.make_room()?;
        self.gathered.put_batch(
            round,
            entry.flow.src,
            entry.flow.dst,
            entry.clear,
            entry.add,
        );
        Ok(())
    }

    /// A packet of the slot of this number, and the core that it takes where it leaves its rack.
    pub fn put_slot(
        &mut self,
        number: &Numeral,
        src: u16,
        dst: u16,
        core: Option<u16>,
    ) -> Result<(), Stop>
        ensures { Passes self.old self.new (line_text (Line.Slot number.now src dst core)) result }
    {
        self.make_room()?;
        self.gathered.put_slot(number, src, dst, core);
        Ok(())
    }

    /// The packets of the slot of this number that some sources send, the first of them `from`, each with the core at its place.
    /// A bit of `senders` tells of each source whether it sends, the lowest bit of the first one.
    #[inline(always)]
    pub(crate) fn put_packets(
        &mut self,
        number: &Numeral,
        from: usize,
        row: &[Option<u16>],
        senders: u64,
        cores: &[Option<u16>],
    ) -> Result<(), Stop>
        requires senders { TellsHeld row.now senders }
        requires sources { from + length row.now ≤ 1000 }
        requires cores { from + length row.now ≤ length cores.now }
        ensures { Passes self.old self.new (row_text number.now cores.now from row.now) result }
    {
        self.make_room_for(row.len())?;
        self.gathered.put_packets(number, from, row, senders, cores);
        Ok(())
    }

    /// A packet that its endpoint sent in the slot of this number.
    pub fn put_sent(&mut self, number: &Numeral, src: u16, dst: u16) -> Result<(), Stop>
        ensures { Passes self.old self.new (line_text (Line.Sent number.now src dst)) result }
    {
        self.make_room()?;
        self.gathered.put_sent(number, src, dst);
        Ok(())
    }
}
