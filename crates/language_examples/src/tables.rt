//! The table of forms.
ghost use Rattle.language_examples.specs.Tables.{CallsAreSaid, CallsHaveTheirWords};

/// The table has a form for every call: its line begins with its word, and says the call.
pub fn each_call_has_a_form()
    ensures said { CallsAreSaid }
    ensures words { CallsHaveTheirWords }
{}
