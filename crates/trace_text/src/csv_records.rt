// The records of a text as the kit reads them, one at a time into one buffer.
ghost use Rattle.std.specs.Prelude.{◌≡◌, [], ◌∷◌, IfOk};
ghost use Rattle.std.specs.Bool.{MatchBool};
ghost use Rattle.csv.specs.Records.{fields_of};
ghost use Rattle.trace_text.specs.Lines.{records_in};

use csv::{ByteRecord, Reader, ReaderBuilder};
use no_memory::NoMemory;
use std::alloc::Global;
use std::io::{Chain, Read};
use std::marker::Model;

/// The records of a text that are left.
#[derive(Drop)]
pub struct CsvRecords<'a> {
    reader: Reader<Chain<&'a [u8], &'a [u8]>>,
    ended: bool,
}

impl<'a> Model for CsvRecords<'a> {
    ghost use Rattle.std.specs.Prelude.{◌≡◌, List, ℕ, [], false, if◌then◌else◌};
    ghost use Rattle.trace_text.specs.Records.{records_left, IsReading};

    ghost Value = { List (List (List ℕ)) };

    ghost view = { λ r. if r.ended then [] else records_left r.reader };

    ghost invariant = { λ r. r.ended ≡ false → IsReading r.reader };
}

impl<'a> CsvRecords<'a> {
    /// The records from here on, in a box, since a reader has tables of some 20 KiB.
    pub fn open(alloc: Global, text: &'a [u8]) -> Result<Box<CsvRecords<'a>>, NoMemory>
        ensures { IfOk result (λ records. records.value ≡ records_in text.now) }
    {
        Ok(Box::new(alloc, CsvRecords::new(alloc, text)?)?)
    }

    // The reader takes a byte order mark off the start of what it is given, and is given one, so that the text keeps its own. It is
    // given names of no columns, so that it keeps no copy of its first record for them.
    fn new(alloc: Global, text: &'a [u8]) -> Result<CsvRecords<'a>, NoMemory>
        ensures { IfOk result (λ records. records ≡ records_in text.now) }
    {
        let marked = b"\xef\xbb\xbf".as_slice().chain(text);
        let mut reader = ReaderBuilder::new()
            .flexible(true)
            .from_reader(alloc, marked);
        match reader.set_byte_headers(ByteRecord::new(alloc)) {
            Ok(()) => Ok(CsvRecords {
                reader,
                ended: false,
            }),
            Err(_) => Err(NoMemory),
        }
    }

    /// Takes the next record, where there is one. Memory for a record is all that can be wanting.
    pub fn read(&mut self, fields: &mut ByteRecord) -> Result<bool, NoMemory>
        ensures { IfOk result (λ found. MatchBool found (self.old ≡ fields_of fields.new ∷ self.new) (self.old ≡ [])) }
    {
        if self.ended {
            return Ok(false);
        }
        let Ok(found) = self.reader.read_byte_record(fields) else {
            self.ended = true;
            return Err(NoMemory);
        };
        self.ended = !found;
        Ok(found)
    }
}
