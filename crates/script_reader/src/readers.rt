//! The lines of a text, one after the other.
ghost use Rattle.std.specs.Prelude.{◌≡◌, map, replicate, None, [], IfOk, OnOk, unwrap_or};
ghost use Rattle.script_language.specs.Drafts.{no_lines, is_in_place as stands, with_line};
ghost use Rattle.script_language.specs.Drafts.{draft_within_limits, script_at_end};
ghost use Rattle.script_language.specs.Lines.{tokens_of};
ghost use Rattle.script_language.specs.Reading.{line_read};
ghost use Rattle.script_reader.specs.Answers.{Does, Gives};

use crate::calls::call_of;
use crate::copies::{append, expand};
use crate::errors::ReadError;
use crate::forms::form_named;
use crate::lexing::{next_token, strip_comment};
use crate::tokens::read_fields;
use crate::totals::{Totals, call_size, space_size};
use rma_types::{Call, Items, Script};
use script_language::{Draft, FaultKind, Fields, Form, form_places};
use std::alloc::{AllocError, Global};
use std::mem;

/// No space yet for each rank.
fn no_spaces(alloc: Global, ranks: u8) -> Result<Items<Option<u32>>, AllocError>
    ensures { IfOk result (λ spaces. spaces ≡ replicate ranks None) }
{
    let mut spaces = Items::new(alloc);
    for _ in 0..ranks {
        spaces.push(None)?;
    }
    Ok(spaces)
}

/// A list without calls for each rank.
fn empty_lists(alloc: Global, ranks: u8) -> Result<Items<Items<Call>>, AllocError>
    ensures { IfOk result (λ lists. lists ≡ replicate ranks []) }
{
    let mut lists = Items::new(alloc);
    for _ in 0..ranks {
        lists.push(Items::new(alloc))?;
    }
    Ok(lists)
}

/// The bytes of each rank's space.
fn space_bytes(alloc: Global, spaces: &[Option<u32>]) -> Result<Items<u32>, AllocError>
    ensures { IfOk result (λ bytes. bytes ≡ map (λ space. unwrap_or space 0) spaces.now) }
{
    let mut bytes = Items::new(alloc);
    for space in spaces {
        bytes.push(space.unwrap_or(0))?;
    }
    Ok(bytes)
}

/// Whether a line of the form may stand here.
fn may_stand(draft: &Draft, form: Form) -> bool
    ensures { result ≡ stands draft.now form }
{
    let begun = draft.ranks != 0;
    let in_block = !draft.block.is_empty();
    let in_repeat = draft.times.is_some();
    match form {
        Form::Ranks => !begun,
        Form::Space => begun && !in_block,
        Form::Rank => begun && !in_repeat,
        Form::Repeat => in_block && !in_repeat,
        Form::End => in_repeat,
        Form::Call(_) => in_block,
    }
}

/// The script so far, and its totals.
#[derive(Debug, Drop)]
pub struct Reader {
    draft: Draft,
    totals: Totals,
}

impl Reader {
    ghost use Rattle.call_rules.specs.WellFormed.{IsWellFormed};
    ghost use Rattle.script_language.specs.Drafts.{with_call};
    ghost use Rattle.script_language.specs.declared.forms.Form.TheVariants.{Ranks, Space, End};
    ghost use Rattle.script_reader.specs.Counted.{IsCounted, HasTotals};
    ghost use Rattle.script_reader.specs.Sound.{IsNewSpace};

    /// Before the first line.
    pub fn new(alloc: Global) -> Reader
        ensures draft { result.draft ≡ no_lines }
        ensures counted { IsCounted result }
    {
        let draft = Draft {
            ranks: 0,
            spaces: Items::new(alloc),
            calls: Items::new(alloc),
            block: Items::new(alloc),
            times: None,
            inside: Items::new(alloc),
        };
        let totals = Totals { calls: 0, bytes: 0 };
        Reader { draft, totals }
    }

    /// The number of ranks.
    fn add_ranks(&mut self, alloc: Global, fields: Fields) -> Result<(), ReadError>
        requires { IsCounted self.old }
        ensures draft { Does result self.new.draft
            (draft_within_limits (with_line self.old.draft Ranks fields)) }
        ensures totals { OnOk result (HasTotals self.new) }
    {
        let spaces = no_spaces(alloc, fields.ranks)?;
        let lists = empty_lists(alloc, fields.ranks)?;
        self.draft.ranks = fields.ranks;
        self.draft.spaces = spaces;
        self.draft.calls = lists;
        self.totals = Totals { calls: 0, bytes: 0 };
        Ok(())
    }

    /// The space of a rank.
    fn add_space(&mut self, alloc: Global, fields: Fields) -> Result<(), ReadError>
        requires counted { IsCounted self.old }
        requires space { IsNewSpace self.old.draft fields }
        ensures draft { Does result self.new.draft
            (draft_within_limits (with_line self.old.draft Space fields)) }
        ensures totals { OnOk result (HasTotals self.new) }
    {
        let totals = self.totals.with(1, 0, space_size(fields.room) as u64)?;
        let spaces = mem::replace(&mut self.draft.spaces, Items::new(alloc));
        let mut spaces = spaces.into_vec();
        spaces[fields.owner as usize] = Some(fields.room);
        self.draft.spaces = Items::from_vec(spaces);
        self.totals = totals;
        Ok(())
    }

    /// The end of a repeat.
    fn add_end(&mut self, alloc: Global, fields: Fields) -> Result<(), ReadError>
        requires { IsCounted self.old }
        ensures draft { Does result self.new.draft
            (draft_within_limits (with_line self.old.draft End fields)) }
        ensures totals { OnOk result (HasTotals self.new) }
    {
        let times = self.draft.times.unwrap_or(0);
        let inside = mem::replace(&mut self.draft.inside, Items::new(alloc));
        let ranks = self.draft.block.len();
        let totals = self.totals.behind(ranks, times, inside.as_slice())?;
        let lists = mem::replace(&mut self.draft.calls, Items::new(alloc));
        let mut lists = lists.into_vec();
        expand(
            alloc,
            &mut lists,
            self.draft.block.as_slice(),
            times,
            inside.as_slice(),
        )?;
        self.draft.calls = Items::from_vec(lists);
        self.draft.times = None;
        self.totals = totals;
        Ok(())
    }

    /// A call.
    fn add_call(&mut self, alloc: Global, call: Call) -> Result<(), ReadError>
        requires { IsCounted self.old }
        ensures draft { Does result self.new.draft
            (draft_within_limits (with_call self.old.draft call)) }
        ensures totals { OnOk result (HasTotals self.new) }
    {
        if self.draft.times.is_some() {
            self.draft.inside.push(call)?;
            return Ok(());
        }
        let ranks = self.draft.block.len();
        let totals = self.totals.with(ranks, 1, call_size(&call) as u64)?;
        let lists = mem::replace(&mut self.draft.calls, Items::new(alloc));
        let mut lists = lists.into_vec();
        append(alloc, &mut lists, self.draft.block.as_slice(), call)?;
        self.draft.calls = Items::from_vec(lists);
        self.totals = totals;
        Ok(())
    }

    /// What a line of a form adds.
    fn add(&mut self, alloc: Global, form: Form, fields: Fields) -> Result<(), ReadError>
        requires counted { IsCounted self.old }
        requires space { form ≡ Space → IsNewSpace self.old.draft fields }
        ensures draft { Does result self.new.draft
            (draft_within_limits (with_line self.old.draft form fields)) }
        ensures totals { OnOk result (HasTotals self.new) }
    {
        match form {
            Form::Ranks => self.add_ranks(alloc, fields),
            Form::Space => self.add_space(alloc, fields),
            Form::Rank => {
                self.draft.block = fields.members;
                Ok(())
            }
            Form::Repeat => {
                self.draft.times = Some(fields.times);
                Ok(())
            }
            Form::End => self.add_end(alloc, fields),
            Form::Call(form) => self.add_call(alloc, call_of(form, fields)),
        }
    }

    /// Reads one more line.
    pub fn line(&mut self, alloc: Global, line: &[u8]) -> Result<(), ReadError>
        requires { IsCounted self.old }
        ensures draft { Does result self.new.draft (line_read self.old.draft (tokens_of line.now)) }
        ensures counted { OnOk result (IsCounted self.new) }
    {
        let Some((word, rest)) = next_token(strip_comment(line)) else {
            return Ok(());
        };
        let form = form_named(word).ok_or(FaultKind::Word)?;
        if !may_stand(&self.draft, form) {
            return Err(ReadError::Refused(FaultKind::Shape));
        }
        let fields = read_fields(alloc, &self.draft, form_places(form), rest)?;
        self.add(alloc, form, fields)
    }

    /// The script, at the end of the text.
    pub fn end(self, alloc: Global) -> Result<Script, ReadError>
        requires { IsCounted self }
        ensures script { Gives result (script_at_end self.draft) }
        ensures well_formed { IfOk result IsWellFormed }
    {
        if self.draft.ranks == 0 || self.draft.times.is_some() {
            return Err(ReadError::Refused(FaultKind::Shape));
        }
        let spaces = space_bytes(alloc, self.draft.spaces.as_slice())?;
        Ok(Script {
            ranks: self.draft.ranks,
            spaces,
            calls: self.draft.calls,
        })
    }
}
