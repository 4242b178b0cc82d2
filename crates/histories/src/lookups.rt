//! Finding the history of a value.
ghost use Rattle.std.specs.Prelude.{◌≡◌, ◌<◌, length, IfSome};
ghost use Rattle.std.specs.Option.{option_map};
ghost use Rattle.rules.specs.Histories.{types_had};
ghost use Rattle.histories.specs.Kept.{history, histories, history_in, place_in};

use crate::history::TypeHistory;
use model::ids::Value;

/// Where the history of `value` stands, if it has one.
pub fn place_of(entries: &[TypeHistory], value: Value) -> Option<usize>
    ensures place { result ≡ place_in (histories entries.now) value }
    ensures bound { IfSome result (λ p. p < length entries.now) }
{
    entries.iter().position(|entry| entry.value == value)
}

/// The history of `value`, if it has one.
pub fn find(entries: &[TypeHistory], value: Value) -> Option<&TypeHistory>
    ensures { option_map (λ h. history h.now) result ≡ history_in (histories entries.now) value }
{
    entries.iter().find(|entry| entry.value == value)
}

/// The types that `value` had, the most recent last; none where none was kept.
pub fn types_had(entries: &[TypeHistory], value: Value) -> &[u32]
    ensures { result.now ≡ types_had (histories entries.now) value }
{
    match find(entries, value) {
        Some(entry) => entry.types.as_slice(),
        None => &[],
    }
}
