// A grammar made ready to be read by: its table, and what is known of each place. The two go together wherever items are worked out.
ghost use Rattle.grammar.specs.Analysed.{ExactAtPlaces};
ghost use Rattle.grammar.specs.Prepared.{DescribesShown};

use crate::analysis::{Analysis, analyse};
use crate::table::Table;

/// A grammar's table, and its analysis.
// no ghost field says of which grammar: it would ask of callers that there is one, and what takes these is total on all
#[derive(Clone, Copy)]
pub struct Prepared {
    pub table: Table,
    pub analysis: Analysis,
}

impl Prepared {
    /// The grammar of a table, with its analysis.
    pub fn new(table: Table) -> Prepared
        ensures value { DescribesShown table result }
        ensures meaning { ExactAtPlaces table result.analysis }
    {
        Prepared {
            table,
            analysis: analyse(&table),
        }
    }
}
