// The section Words: questions about one word.
use console_text::line::Arguments;
use console_text::output::Reply;
use console_text::reply::ToReply;

#[derive(Clone, Copy, Debug, PartialEq, Eq)]
enum Question {
    Popcount,
    Lsb,
    Msb,
    SelectInWord,
}

impl Question {
    fn named(name: &[u8]) -> Option<Question> {
        match name {
            b"popcount" => Some(Question::Popcount),
            b"lsb" => Some(Question::Lsb),
            b"msb" => Some(Question::Msb),
            b"select_in_word" => Some(Question::SelectInWord),
            _ => None,
        }
    }
}

// None: the name is none of the questions'.
pub fn answer(name: &[u8], r: Arguments) -> Option<Reply> {
    let question = Question::named(name)?;
    let reply = match (question, r.n) {
        (Question::Popcount, 1) => broadword::popcount(r.a).reply(),
        (Question::Lsb, 1) => broadword::lsb(r.a).reply(),
        (Question::Msb, 1) => broadword::msb(r.a).reply(),
        (Question::SelectInWord, 2) => broadword::select_in_word(r.a, r.b as usize).reply(),
        _ => Reply::Bad,
    };
    Some(reply)
}
