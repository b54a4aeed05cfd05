//! Literals.
ghost use Rattle.std.specs.Prelude.{◌≡◌, ◌==◌, ◌++◌, ◌∷◌, [], OnOk, OnErr};
ghost use Rattle.script_lang.specs.RecordValues.{no_values, value_count};
ghost use Rattle.script_lang.specs.Listed.{literals_of};

use crate::short_list::ShortList;
use std::alloc::{AllocError, Global};
use std::marker::Model;

/// The bytes of a byte string, with its escapes decoded.
pub type ByteText = ShortList<u8, 32>;

/// A literal other than a record.
#[derive(Drop)]
pub enum ScalarLiteral {
    /// An integer of up to 30 digits, with a sign.
    Integer(i128),
    Boolean(bool),
    Bytes(ByteText),
}

/// The values of a record, at least one, each a scalar or a record itself.
#[derive(Drop)]
#[cycle(literal)]
pub struct RecordLiteral {
    values: Vec<Literal>,
}

impl Model for RecordLiteral {
    ghost use Rattle.script_lang.specs.RecordValues.{Values, node_count};
    ghost use Rattle.script_lang.specs.inside.ValueCodes.{values_code};

    ghost Value = { Values };

    ghost coded = { values_code };

    ghost use Rattle.script_lang.specs.Listed.{all_values};

    ghost view = { λ r. all_values r.values.items };

    ghost size = { node_count };

    ghost use Rattle.script_lang.specs.inside.NodeCounts.{depth_le-node_count};

    ghost size_decreases = { λ r h. depth_le-node_count r.values.items };
}

#[derive(Drop)]
#[cycle(literal)]
pub enum Literal {
    Scalar(ScalarLiteral),
    Record(RecordLiteral),
}

/// The literals of `array`.
pub type Literals = ShortList<Literal, 0>;

impl Default for Literal {
    fn default() -> Literal {
        Literal::Scalar(ScalarLiteral::Boolean(false))
    }
}

impl RecordLiteral {
    pub fn new(alloc: Global) -> RecordLiteral
        ensures { result ≡ no_values }
    {
        RecordLiteral {
            values: Vec::new(alloc),
        }
    }

    #[tactic(auto, using(crate::specs::RecordLaws::literals_of_listed))]
    pub fn push(&mut self, value: Literal) -> Result<(), AllocError>
        ensures ok { OnOk result (literals_of self.new ≡ literals_of self.old ++ value ∷ []) }
        ensures err { OnErr result (self.new ≡ self.old) }
    {
        self.values.push(value)?;
        Ok(())
    }

    #[tactic(auto, using(crate::specs::RecordLaws::value_count_listed))]
    pub fn is_empty(&self) -> bool
        ensures { result ≡ (value_count self.now == 0) }
    {
        self.values.as_slice().is_empty()
    }

    #[tactic(auto, using(crate::specs::RecordLaws::literals_of_listed))]
    pub fn as_slice(&self) -> &[Literal]
        ensures { result.now ≡ literals_of self.now }
    {
        self.values.as_slice()
    }
}
