ghost use Rattle.std.specs.Prelude.{◌≡◌, true, false, MatchOption};
ghost use Rattle.csv.specs.Records.{fields_of};
ghost use Rattle.script_text.specs.Rows.{is_readable_row, script_row_of};
ghost use Rattle.script_text.specs.declared.kind.Kind.TheVariants as kind;

use crate::kind::Kind;
use csv::ByteRecord;
use trace_text::number_at;

/// A row, read number by number.
#[derive(Clone, Copy, Debug, PartialEq, Eq)]
pub(crate) enum Row {
    Pair { endpoints: u32, b: u32, span: u32 },
    Ask { src: u32, dst: u32, slots: u32 },
    Request { node: u32 },
    Grant { m: u32 },
    Take { node: u32, m: u32 },
    Tell { src: u32, node: u32 },
    Publish { node: u32 },
    Hear { src: u32, batch: u32 },
    Crash { node: u32 },
    End,
}

impl Row {
    /// The row of a kind with these fields; None where one is no number.
    pub(crate) fn of(kind: Kind, fields: &ByteRecord) -> Option<Row>
        ensures { MatchOption result (is_readable_row kind (fields_of fields.now) ≡ false) (λ row. (is_readable_row kind (fields_of fields.now) ≡ true) × (row ≡ script_row_of kind (fields_of fields.now))) }
    {
        match kind {
            Kind::Pair => Row::pair(fields),
            Kind::Ask => Row::ask(fields),
            Kind::Request => Some(Row::Request {
                node: number_at(fields, 1)?,
            }),
            Kind::Grant => Some(Row::Grant {
                m: number_at(fields, 1)?,
            }),
            Kind::Take => Some(Row::Take {
                node: number_at(fields, 1)?,
                m: number_at(fields, 2)?,
            }),
            Kind::Tell => Some(Row::Tell {
                src: number_at(fields, 1)?,
                node: number_at(fields, 2)?,
            }),
            Kind::Publish => Some(Row::Publish {
                node: number_at(fields, 1)?,
            }),
            Kind::Hear => Some(Row::Hear {
                src: number_at(fields, 1)?,
                batch: number_at(fields, 2)?,
            }),
            Kind::Crash => Some(Row::Crash {
                node: number_at(fields, 1)?,
            }),
            Kind::End => Some(Row::End),
        }
    }

    fn pair(fields: &ByteRecord) -> Option<Row>
        ensures { MatchOption result (is_readable_row kind.Pair (fields_of fields.now) ≡ false) (λ row. (is_readable_row kind.Pair (fields_of fields.now) ≡ true) × (row ≡ script_row_of kind.Pair (fields_of fields.now))) }
    {
        let endpoints = number_at(fields, 1)?;
        let b = number_at(fields, 2)?;
        let span = number_at(fields, 3)?;
        Some(Row::Pair { endpoints, b, span })
    }

    fn ask(fields: &ByteRecord) -> Option<Row>
        ensures { MatchOption result (is_readable_row kind.Ask (fields_of fields.now) ≡ false) (λ row. (is_readable_row kind.Ask (fields_of fields.now) ≡ true) × (row ≡ script_row_of kind.Ask (fields_of fields.now))) }
    {
        let src = number_at(fields, 1)?;
        let dst = number_at(fields, 2)?;
        let slots = number_at(fields, 3)?;
        Some(Row::Ask { src, dst, slots })
    }
}
