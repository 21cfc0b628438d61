//! Regular expressions of `pattern` statements, each made once (RFC 7950, 9.4.5).

ghost use Rattle.std.specs.Prelude.{◌≡◌, IfOk, IfSome};

use crate::matching::is_pattern_statement;
use std::alloc::{AllocError, Global};
use std::rc::Rc;
use ylink_grammar::Sources;
use ytype::Expression;

/// The regular expressions of a set of modules, each text once. Which texts are held changes no answer: one that isn't is read
/// when it is asked for.
#[derive(Drop)]
pub struct Expressions {
    // In the order of their texts.
    held: Vec<Rc<Expression>>,
}

/// The texts of the `pattern` statements of a set, in order.
fn texts_of<'t>(alloc: Global, sources: &Sources<'t>) -> Result<Vec<&'t str>, AllocError> {
    let mut texts = Vec::new(alloc);
    for slot in sources.slots() {
        if is_pattern_statement(&slot.label) {
            texts.push(slot.label.argument())?;
        }
    }
    texts.sort()?;
    Ok(texts)
}

/// The expression with a text; one that is too large for the engine is told as want of memory.
fn read_shared(alloc: Global, text: &str) -> Result<Rc<Expression>, AllocError>
    ensures { IfOk result (λ expression. expression.value ≡ text.now) }
{
    match Expression::read(alloc, text) {
        Ok(expression) => Ok(Rc::new(alloc, expression)?),
        Err(_) => Err(AllocError),
    }
}

impl Expressions {
    ghost use Rattle.std.specs.Prelude.{◌≡◌, IfOk, IfSome};

    /// Those that the `pattern` statements of a set state.
    pub fn of(alloc: Global, sources: &Sources<'_>) -> Result<Expressions, AllocError> {
        let texts = texts_of(alloc, sources)?;
        let mut expressions = Expressions {
            held: Vec::new(alloc),
        };
        for text in &texts {
            expressions.add(alloc, *text)?;
        }
        Ok(expressions)
    }

    /// Adds the one with a text that is no less than those that are held, if it isn't the last of them.
    fn add(&mut self, alloc: Global, text: &str) -> Result<(), AllocError> {
        if let Some(last) = self.held.last() {
            if last.text() == text {
                return Ok(());
            }
        }
        self.held.push(read_shared(alloc, text)?)?;
        Ok(())
    }

    /// The one with a text, where it is held.
    fn find(&self, text: &str) -> Option<&Rc<Expression>>
        ensures { IfSome result (λ expression. expression.now.value ≡ text.now) }
    {
        let place = match self.held.binary_search_by(|held| held.text().cmp(text)) {
            Ok(place) => place,
            Err(_) => return None,
        };
        let held = self.held.get(place)?;
        if held.text() == text {
            Some(held)
        } else {
            None
        }
    }

    /// The one with a text.
    pub fn with_text(&self, alloc: Global, text: &str) -> Result<Rc<Expression>, AllocError>
        ensures { IfOk result (λ expression. expression.value ≡ text.now) }
    {
        match self.find(text) {
            Some(expression) => Ok(expression.clone()?),
            None => read_shared(alloc, text),
        }
    }
}
