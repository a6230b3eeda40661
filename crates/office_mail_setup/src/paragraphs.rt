//! Reads all paragraphs of a text.
ghost use Rattle.std.specs.Prelude.{◌≡◌, ◌⊎◌, None, MatchResult, IsSome};
ghost use Rattle.deb_control.specs.Paragraphs.{reading};
ghost use Rattle.deb_control.specs.declared.fault.ParagraphFault.TheVariants as paragraph_fault;

use deb_control::{Paragraph, ParagraphFault, Paragraphs};
use std::alloc::Global;

/// All paragraphs of a text, or the reader's refusal.
pub fn all_paragraphs<'a>(
    alloc: Global,
    text: &'a [u8],
) -> Result<Vec<Paragraph<'a>>, ParagraphFault>
    ensures { MatchResult result
        (λ v. reading text.now ≡ record { paragraphs = v.items; refusal = None })
        (λ e. (e ≡ paragraph_fault.NoMemory) ⊎ IsSome (reading text.now).refusal) }
{
    let mut reader = Paragraphs::new(alloc, text);
    let mut paragraphs = Vec::new(alloc);
    'paragraphs: while let Some(paragraph) = reader.next()? {
        paragraphs.push(paragraph)?;
    }
    Ok(paragraphs)
}
