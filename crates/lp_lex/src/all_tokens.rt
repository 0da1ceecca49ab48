//! All tokens of a text.
ghost use Rattle.std.specs.Prelude.{◌≡◌, ◌-◌, ◌^◌, ◌<◌, All, Err, IfOk, Ok, length};
ghost use Rattle.base_names.specs.declared.memory.OrMemory.TheVariants.{Fault};
ghost use Rattle.lp_defs.specs.declared.token.LexFault.{LexFault};
ghost use Rattle.lp_defs.specs.Items.{items, tokens_of};
ghost use Rattle.lp_lex.specs.Ahead.{AreSpans, HasKind};

use crate::lexer::Lexer;
use base_names::OrMemory;
use lp_defs::{LexFault, Token};
use std::alloc::Global;

/// All tokens of a text of fewer than 2^32 - 1 bytes, or the first run of bytes that is none.
///
/// The spans rise, and the text of a token is the slice.
pub fn tokens(alloc: Global, text: &[u8]) -> Result<Vec<Token>, OrMemory<LexFault>>
    requires { length text.now < 2 ^ 32 - 1 }
    ensures ok { IfOk result (λ tokens. tokens_of (items text.now) ≡ Ok tokens.items) }
    ensures fault { (fault : LexFault) → result ≡ Err (Fault fault) → tokens_of (items text.now) ≡ Err fault }
    ensures spans { IfOk result (λ tokens. AreSpans 0 (length text.now) tokens.items) }
    ensures kinds { IfOk result (λ tokens. All (HasKind text.now) tokens.items) }
{
    let mut tokens = Vec::new(alloc);
    let mut lexer = Lexer::new(text);
    loop {
        match lexer.next_token() {
            Ok(Some(token)) => tokens.push(token)?,
            Ok(None) => return Ok(tokens),
            Err(fault) => return Err(OrMemory::Fault(fault)),
        }
    }
}
