// Standard output: what has gathered goes out, and a write that fails is told.
ghost use Rattle.std.specs.Prelude.{◌≡◌};
ghost use Rattle.console_text.specs.Gathered.{emptied};
ghost use Rattle.console_text.specs.Held.{held};

use console_text::output::Output;
use word_files::say;
use word_files::say::Failure;

// All of the text.
pub fn whole(text: &[u8]) -> Result<(), Failure> {
    if io::write_all(1, text) {
        return Ok(());
    }
    say::sentence(b"standard output cannot be written");
    Err(Failure::Unusable)
}

// All that has gathered.
pub fn page(out: &mut Output) -> Result<(), Failure>
    ensures { held out.new ≡ emptied (held out.old) }
{
    let sent = whole(out.gathered());
    out.clear();
    sent
}

// The same where a line of up to 5,536 bytes might not fit.
pub fn full_page(out: &mut Output) -> Result<(), Failure> {
    if out.gathered().len() > 60000 {
        page(out)?;
    }
    Ok(())
}
