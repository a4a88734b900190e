// An image that is opened, as an answer.
ghost use Rattle.std.specs.Prelude.{◌≡◌};
ghost use Rattle.elias_fano.specs.Accept.{of_opened};
ghost use Rattle.console_text.specs.Says.{answers, says_of};
ghost use Rattle.console_questions.specs.Questions.{open_says};

use console_text::output::Reply;
use elias_fano::image::Parts;
use errors::Refusal;

pub fn opened(o: Result<Parts, Refusal>) -> Reply
    ensures { says_of result ≡ answers (open_says (of_opened o)) }
{
    match o {
        Ok(_) => Reply::Done,
        Err(e) => Reply::Refused(e),
    }
}
