// What a call gives, as the answer to a command.
ghost use Rattle.std.specs.Prelude.{◌≡◌};
ghost use Rattle.errors.specs.Answer.{Answer, value, done, flag, answer_if, answer_or};
ghost use Rattle.console_text.specs.Says.{answers, says_of};

use crate::output::Reply;
use errors::Refusal;

pub trait ToReply {
    // In document 01's terms.
    ghost answer: { Self → Answer };

    fn reply(self) -> Reply
        ensures { says_of result ≡ answers (answer self) };
}

impl ToReply for u64 {
    ghost answer = { value };

    fn reply(self) -> Reply {
        Reply::Value(self)
    }
}

impl ToReply for usize {
    ghost answer = { value };

    fn reply(self) -> Reply {
        Reply::Value(self as u64)
    }
}

impl ToReply for bool {
    ghost answer = { λ b. value (flag b) };

    fn reply(self) -> Reply {
        Reply::Value(u64::from(self))
    }
}

impl ToReply for () {
    ghost answer = { λ u. done };

    fn reply(self) -> Reply {
        Reply::Done
    }
}

impl<T: ToReply> ToReply for Option<T> {
    ghost answer = { answer_if T.answer };

    fn reply(self) -> Reply {
        match self {
            Some(x) => x.reply(),
            None => Reply::Nothing,
        }
    }
}

impl<T: ToReply> ToReply for Result<T, Refusal> {
    ghost answer = { answer_or T.answer };

    fn reply(self) -> Reply {
        match self {
            Ok(x) => x.reply(),
            Err(e) => Reply::Refused(e),
        }
    }
}
