//! Laws of the definitions, which the check proves. Each function's contract is one.

ghost use Rattle.std.specs.Prelude.{◌≡◌, Some, true};
ghost use Rattle.kv_base.specs.Map.{Bytes};
ghost use Rattle.level_set.specs.declared.edit.Edit.{Edit};
ghost use Rattle.edit_codec.specs.declared.state.State.{State};
ghost use Rattle.edit_codec.specs.Records.{FitsEdit, FitsHead, IsEditOf, IsHeadOf};
ghost use Rattle.edit_codec.specs.Records.{edit_text, state_head_text, read_edit, read_state_head};
ghost use Rattle.edit_codec.specs.States.{is_edit, is_state_head};

/// An edit within its limits is read back from its body.
#[tactic(auto, using(crate::specs::RecordLaws::edit_is_read))]
pub fn edits_are_read()
    ensures { (edit : Edit) → is_edit edit ≡ true → FitsEdit edit → read_edit (edit_text edit) ≡ Some edit }
{}

/// Nothing else is read: what is read is within its limits, and has these bytes.
#[tactic(auto, using(crate::specs::RecordLaws::only_edit_is_read))]
pub fn only_edits_are_read()
    ensures { (bytes : Bytes) (edit : Edit) → read_edit bytes ≡ Some edit → IsEditOf bytes edit }
{}

/// A state within its limits is read back from the body of its head.
#[tactic(auto, using(crate::specs::RecordLaws::head_is_read))]
pub fn heads_are_read()
    ensures { (state : State) → is_state_head state ≡ true → FitsHead state → read_state_head (state_head_text state) ≡ Some state }
{}

/// Nothing else is read: what is read is within its limits, and has these bytes.
#[tactic(auto, using(crate::specs::RecordLaws::only_head_is_read))]
pub fn only_heads_are_read()
    ensures { (bytes : Bytes) (state : State) → read_state_head bytes ≡ Some state → IsHeadOf bytes state }
{}
