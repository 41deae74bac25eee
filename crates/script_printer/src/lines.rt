//! The lines of a text.
ghost use Rattle.std.specs.Prelude.{◌≡◌, ◌++◌, OnOk};
ghost use Rattle.std.specs.List.{flat_map};
ghost use Rattle.std.specs.String.{string_bytes};
ghost use Rattle.script_language.specs.Canon.{call_line, form_line};
ghost use Rattle.script_language.specs.Spelling.{spelling_of};
ghost use Rattle.script_printer.specs.Printing.{behind_spaces, fields_said};

use crate::calls::said;
use crate::said::Said;
use crate::tokens::write_place;
use rma_types::Call;
use script_language::{Form, Place, call_form, form_places, form_word};
use std::alloc::AllocError;

/// Writes what a line says at each of its places.
fn write_places(text: &mut String, said: &Said<'_>, places: &[Place]) -> Result<(), AllocError>
    ensures { OnOk result
        (string_bytes text.new
        ≡ string_bytes text.old
        ++ behind_spaces (flat_map (spelling_of (fields_said said.now)) places.now)) }
{
    for index in 0..places.len() {
        write_place(text, said, places[index])?;
    }
    Ok(())
}

/// Writes a line of a form: its word, and what it says at each of its places.
pub(crate) fn write_line(text: &mut String, form: Form, said: &Said<'_>) -> Result<(), AllocError>
    ensures { OnOk result
        (string_bytes text.new ≡ string_bytes text.old ++ form_line form (fields_said said.now)) }
{
    text.push_str(form_word(form))?;
    write_places(text, said, form_places(form))?;
    text.push_str("\n")?;
    Ok(())
}

/// Writes the line of a call.
pub(crate) fn write_call(text: &mut String, call: &Call) -> Result<(), AllocError>
    ensures { OnOk result (string_bytes text.new ≡ string_bytes text.old ++ call_line call.now) }
{
    write_line(text, Form::Call(call_form(call)), &said(call))
}
