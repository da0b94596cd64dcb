ghost use Rattle.gt_documents.specs.Place.{in_item, member_place, place_text, query_place, steps_text, under};
ghost use Rattle.gt_documents.specs.Steps.{steps_of};
ghost use Rattle.gt_documents.specs.declared.place.Step.TheVariants as step;
ghost use Rattle.std.specs.Prelude.{◌≡◌, ◌++◌, [], IfOk, codes, decimal, string_bytes};

use gt_values::Text;
use std::alloc::{AllocError, Global};
use std::marker::Model;

/// The name of a member. Contracts see its bytes.
#[derive(Debug, Drop)]
pub struct Name {
    text: &'static str,
}

impl Model for Name {
    ghost use Rattle.std.specs.Prelude.{List, ℕ};

    ghost Value = { List ℕ };

    ghost view = { λ name. name.text.now };
}

impl Name {
    /// The name as a `str`.
    fn as_str(&self) -> &'static str
        ensures { result.now ≡ self.now }
    {
        self.text
    }
}

/// A step from an object or a list inwards: to a member, or to an item, counted from 0.
#[derive(Debug, Drop)]
pub enum Step {
    Member(Name),
    Item(u64),
}

impl Step {
    /// The step to the member of this name.
    pub fn member(name: &'static str) -> Step
        ensures { result ≡ step.Member name.now }
    {
        Step::Member(Name { text: name })
    }
}

/// A place in a document: at most four steps, from the outermost on. Contracts see the list of the steps.
///
/// The place without a step is the whole of what was read. A place holds no memory but its own.
#[derive(Debug, Drop)]
pub struct Place {
    first: Option<Step>,
    second: Option<Step>,
    third: Option<Step>,
    fourth: Option<Step>,
}

impl Model for Place {
    ghost use Rattle.std.specs.Prelude.{List, []};
    ghost use Rattle.gt_documents.specs.Steps.{steps_of};
    ghost use Rattle.gt_documents.specs.declared.place.Step.{Step};

    ghost Value = { List Step };

    ghost view = { λ p. steps_of p.first
        (steps_of p.second (steps_of p.third (steps_of p.fourth []))) };
}

impl Place {
    /// The whole of what was read: a body, or an item.
    pub fn whole() -> Place
        ensures { result ≡ [] }
    {
        Place {
            first: None,
            second: None,
            third: None,
            fourth: None,
        }
    }

    /// The member of this name.
    pub fn member(name: &'static str) -> Place
        ensures { result ≡ member_place name.now }
    {
        Place {
            first: Some(Step::member(name)),
            second: None,
            third: None,
            fourth: None,
        }
    }

    /// The query of a request.
    pub fn query() -> Place
        ensures { result ≡ query_place }
    {
        Place::member("query")
    }

    /// The same place behind one more step. Of a place of four steps the innermost is left out.
    pub fn under(self, step: Step) -> Place
        ensures { result ≡ under step self }
    {
        let Place {
            first,
            second,
            third,
            fourth: _,
        } = self;
        Place {
            first: Some(step),
            second: first,
            third: second,
            fourth: third,
        }
    }

    /// The same place in an item of the list of this name.
    pub fn in_item(self, list: &'static str, at: u64) -> Place
        ensures { result ≡ in_item list.now at self }
    {
        self.under(Step::Item(at)).under(Step::member(list))
    }

    /// How the place is written: `body` for the whole, otherwise as `DATA[3].source_path`.
    pub fn text(&self, alloc: Global) -> Result<Text, AllocError>
        ensures { IfOk result (λ text. text ≡ place_text self.now) }
    {
        let fourth = text_behind(alloc, &self.fourth, "")?;
        let third = text_behind(alloc, &self.third, fourth.as_str())?;
        let rest = text_behind(alloc, &self.second, third.as_str())?;
        let text = match &self.first {
            Some(Step::Member(name)) => joined(alloc, name.as_str(), rest.as_str())?,
            Some(Step::Item(at)) => item_text(alloc, *at, rest.as_str())?,
            None => String::from_str(alloc, "body")?,
        };
        Ok(Text::from_string(text))
    }
}

// How a step behind others is written, with what stands behind it; nothing, without a step.
fn text_behind(alloc: Global, step: &Option<Step>, rest: &str) -> Result<String, AllocError>
    ensures { IfOk result
        (λ text. (steps : _) → rest.now ≡ steps_text steps
        → string_bytes text ≡ steps_text (steps_of step.now steps)) }
{
    match step {
        Some(Step::Member(name)) => member_text(alloc, name.as_str(), rest),
        Some(Step::Item(at)) => item_text(alloc, *at, rest),
        None => Ok(String::new(alloc)),
    }
}

// How a member behind another step is written, with what stands behind it.
fn member_text(alloc: Global, name: &str, rest: &str) -> Result<String, AllocError>
    ensures { IfOk result (λ text. string_bytes text ≡ codes "." ++ name.now ++ rest.now) }
{
    format!(in alloc; ".{name}{rest}")
}

// How an item of a list is written, with what stands behind it.
#[tactic(auto, using(crate::proofs::PlaceLemmas::item_then))]
fn item_text(alloc: Global, at: u64, rest: &str) -> Result<String, AllocError>
    ensures { IfOk result
        (λ text. string_bytes text ≡ codes "[" ++ decimal at ++ codes "]" ++ rest.now) }
{
    let item = format!(in alloc; "[{at}]")?;
    joined(alloc, item.as_str(), rest)
}

// The two texts, one behind the other.
fn joined(alloc: Global, name: &str, rest: &str) -> Result<String, AllocError>
    ensures { IfOk result (λ text. string_bytes text ≡ name.now ++ rest.now) }
{
    format!(in alloc; "{name}{rest}")
}
