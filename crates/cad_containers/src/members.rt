// The built-in members of arrays and dictionaries.
ghost use Rattle.cad_containers.specs.Code.Members.{IsKind};
ghost use Rattle.cad_evaluation.specs.Builtins.{plain_member};
ghost use Rattle.cad_receivers.specs.Views.{at_spot, settled_of};
ghost use Rattle.cad_rows.specs.Views.{pure_row, pure_tree};
ghost use Rattle.cad_state.specs.Views.{FindsAndCarriesOut};

use crate::array_changes::change_array;
use crate::concat::concat_array;
use crate::dictionary_changes::change_dictionary;
use crate::reads::{read_in_array, read_in_dictionary};
use cad_outcomes::Stop;
use cad_receivers::Settled;
use cad_rows::{Place, Tree, discard_row};
use cad_state::RunState;
use cad_types::Builtin;

/// What members of containers do.
#[derive(Clone, Copy, Debug, PartialEq, Eq)]
pub(crate) enum Kind {
    /// Tells something of an array, without a look at own types.
    ArrayRead,
    /// Gives an array of copies of its elements, and others behind them.
    ArrayConcat,
    ArrayChange,
    DictionaryRead,
    DictionaryChange,
    /// It is of no container.
    Other,
}

/// What a member does.
fn kind_of(member: Builtin) -> Kind
    ensures { IsKind member result }
{
    match member {
        Builtin::ArrayLength => Kind::ArrayRead,
        Builtin::ArrayContains => Kind::ArrayRead,
        Builtin::ArrayFirstIndex => Kind::ArrayRead,
        Builtin::ArraySlice => Kind::ArrayRead,
        Builtin::ArrayReverse => Kind::ArrayRead,
        Builtin::ArrayConcat => Kind::ArrayConcat,
        Builtin::ArrayAppend => Kind::ArrayChange,
        Builtin::ArrayAppendAll => Kind::ArrayChange,
        Builtin::ArrayInsert => Kind::ArrayChange,
        Builtin::ArrayRemove => Kind::ArrayChange,
        Builtin::ArrayRemoveFirst => Kind::ArrayChange,
        Builtin::ArrayRemoveLast => Kind::ArrayChange,
        Builtin::DictionaryLength => Kind::DictionaryRead,
        Builtin::DictionaryKeys => Kind::DictionaryRead,
        Builtin::DictionaryValues => Kind::DictionaryRead,
        Builtin::DictionaryContainsKey => Kind::DictionaryRead,
        Builtin::DictionaryInsert => Kind::DictionaryChange,
        Builtin::DictionaryRemove => Kind::DictionaryChange,
        _ => Kind::Other,
    }
}

/// A built-in member of arrays or dictionaries on what the receiver is now, which was settled. ReferenceInvalid where that is gone,
/// or where a swap has taken out what leaves it; IndexOutOfBounds and SliceOutOfBounds where there is no such place; TooLarge where there would
/// be over 65,536 elements; ElementType where a value isn't of the container's own type; IllTyped where the receiver is no such
/// container, the arguments don't fit, or a resource would be copied. Memory of all other members.
pub fn container_member(
    state: &mut RunState,
    member: Builtin,
    receiver: Settled<'_>,
    arguments: Vec<Place>,
) -> Result<Tree, Stop>
    ensures { FindsAndCarriesOut pure_tree (at_spot (settled_of receiver.entry) (λ spot. plain_member member spot (pure_row arguments.items))) state.old state.new result }
{
    match kind_of(member) {
        Kind::ArrayChange => change_array(state, member, receiver, arguments),
        Kind::ArrayRead => read_in_array(state, member, receiver, arguments),
        Kind::DictionaryChange => change_dictionary(state, member, receiver, arguments),
        Kind::DictionaryRead => read_in_dictionary(state, member, receiver, arguments),
        Kind::ArrayConcat => concat_array(state, receiver, arguments),
        Kind::Other => {
            discard_row(arguments);
            Err(Stop::Memory)
        }
    }
}
