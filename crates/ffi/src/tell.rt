// Each answer as C has it: its kind, and the value or the refusal's number.
ghost use Rattle.std.specs.Prelude.{◌≡◌};
ghost use Rattle.errors.specs.Answer.{Answer, value, of_bool, answer_if, answer_or};
ghost use Rattle.ffi.specs.Answers.{ef_answer};

use crate::{EF_NONE, EF_REFUSED, EF_VALUE, EfAnswer};
use errors::Refusal;

pub trait Tell {
    // In document 01's terms.
    ghost answer: { Self → Answer };

    fn tell(self) -> EfAnswer
        ensures { result ≡ ef_answer (answer self) };
}

impl Tell for u64 {
    ghost answer = { value };

    fn tell(self) -> EfAnswer {
        EfAnswer {
            kind: EF_VALUE,
            value: self,
        }
    }
}

impl Tell for usize {
    ghost answer = { value };

    fn tell(self) -> EfAnswer {
        (self as u64).tell()
    }
}

// A yes is 1 and a no is 0.
impl Tell for bool {
    ghost answer = { of_bool };

    fn tell(self) -> EfAnswer {
        u64::from(self).tell()
    }
}

impl<T: Tell> Tell for Option<T> {
    ghost answer = { answer_if T.answer };

    fn tell(self) -> EfAnswer {
        match self {
            Some(x) => x.tell(),
            None => EfAnswer {
                kind: EF_NONE,
                value: 0,
            },
        }
    }
}

impl<T: Tell> Tell for Result<T, Refusal> {
    ghost answer = { answer_or T.answer };

    fn tell(self) -> EfAnswer {
        match self {
            Ok(x) => x.tell(),
            Err(e) => EfAnswer {
                kind: EF_REFUSED,
                value: u64::from(e),
            },
        }
    }
}
