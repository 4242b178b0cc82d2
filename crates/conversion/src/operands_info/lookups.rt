//! Looking up what an operand was.
ghost use Rattle.std.specs.Prelude.{◌≡◌};
ghost use Rattle.std.specs.Option.{option_map};
ghost use Rattle.row.specs.Items.{row_items};
ghost use Rattle.rules.specs.Histories.{types_had};
ghost use Rattle.histories.specs.Kept.{histories};
ghost use Rattle.conversion.specs.Info.{info_of, some_types, last_type, last_of_kind};

use super::OperandsInfo;
use histories::TypeHistory;
use histories::lookups::types_had;
use model::ids::Value;
use model::limits::MAX_OPERANDS;
use row::Row;

impl OperandsInfo {
    /// What `operands` says.
    pub fn new(operands: Row<TypeHistory, MAX_OPERANDS>) -> OperandsInfo
        ensures { info_of result ≡ histories (row_items operands) }
    {
        OperandsInfo { operands }
    }

    /// The types that `operand` had, the most recent last; none where none was kept.
    fn types(&self, operand: Value) -> &[u32]
        ensures { result.now ≡ types_had (info_of self.now) operand }
    {
        types_had(self.operands.as_slice(), operand)
    }

    /// The types that `operand` had, the most recent last, where one was kept.
    pub fn lookup_operand_history(&self, operand: Value) -> Option<&[u32]>
        ensures { option_map (λ x. x.now) result ≡ some_types (types_had (info_of self.now) operand) }
    {
        let types = self.types(operand);
        if types.is_empty() { None } else { Some(types) }
    }

    /// The most recent type that `operand` had, where one was kept.
    pub fn lookup_most_recent_type(&self, operand: Value) -> Option<u32>
        ensures { result ≡ last_type (types_had (info_of self.now) operand) }
    {
        self.types(operand).last().copied()
    }

    /// The most recent type of the type kind `kind` that `operand` had, where one was kept.
    pub fn lookup_most_recent_of_type(&self, kind: u16, operand: Value) -> Option<u32>
        ensures { result ≡ last_of_kind kind (types_had (info_of self.now) operand) }
    {
        self.types(operand)
            .iter()
            .rev()
            .copied()
            .find(|ty| *ty / 65536 == u32::from(kind))
    }
}
