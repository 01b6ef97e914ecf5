// What the console of a run goes by.
ghost use Rattle.std.specs.Prelude.{◌≡◌, IfOk};
ghost use Rattle.option_set.specs.Values.{text_of_word};
ghost use Rattle.run_lifecycle.specs.Consoles as consoles;

use dl_kinds::Text;
use option_set::{Num, Options, Word};
use std::alloc::{AllocError, Global};

/// What the console of a run goes by.
#[derive(Debug, Drop)]
pub struct ConsoleTerms {
    pub is_on: bool,
    /// What each of its calls is to tell, if there is one.
    pub secret: Option<Text>,
    /// The most bytes that the content of a request may take.
    pub most: u32,
}

/// Whether these options turn the console on.
pub fn is_console_on(globals: &Options) -> bool
    ensures { result ≡ consoles.is_console_on globals.now }
{
    globals.number(Num::EnableRpc) == 1
}

/// How many of these doors clients may come to.
pub(crate) fn doors_used(globals: &Options, doors: u16) -> u16
    ensures { result ≡ consoles.doors_used globals.now doors }
{
    if is_console_on(globals) { doors } else { 0 }
}

fn secret_of(alloc: Global, globals: &Options) -> Result<Option<Text>, AllocError>
    ensures { IfOk result (λ secret. secret ≡ text_of_word globals.now Word.RpcSecret) }
{
    match globals.text(Word::RpcSecret) {
        Some(secret) => Ok(Some(Text::of(alloc, secret)?)),
        None => Ok(None),
    }
}

/// What the console goes by.
pub(crate) fn console_of(alloc: Global, globals: &Options) -> Result<ConsoleTerms, AllocError>
    ensures { IfOk result (λ console. console ≡ consoles.console_of globals.now) }
{
    Ok(ConsoleTerms {
        is_on: is_console_on(globals),
        secret: secret_of(alloc, globals)?,
        most: globals.number(Num::RpcMaxRequestSize) as u32,
    })
}
