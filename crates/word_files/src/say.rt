// Sentences on standard error.
ghost use Rattle.std.specs.Prelude.{◌≡◌};

const STANDARD_ERROR: i32 = 2;

// How a command fails; it has said why.
#[derive(Clone, Copy, Debug, PartialEq, Eq)]
pub enum Failure {
    // What was asked for is refused.
    Refused,
    // The command is out of form, or a file or a stream cannot be read or written.
    Unusable,
}

// What has gathered.
pub fn gathered(out: &[u8]) {
    io::write_all(STANDARD_ERROR, out);
}

// `burner: ` and the sentence.
pub fn sentence(text: &[u8]) {
    of_file(text, b"");
}

// `burner: `, the file's path and the rest of the sentence.
pub fn of_file(path: &[u8], rest: &[u8]) {
    io::write_all(STANDARD_ERROR, b"burner: ");
    io::write_all(STANDARD_ERROR, path);
    io::write_all(STANDARD_ERROR, rest);
    io::write_all(STANDARD_ERROR, b"\n");
}

// Says it of the file, which is refused.
pub fn refused(path: &[u8], rest: &[u8]) -> Failure
    ensures { result ≡ Failure.Refused }
{
    of_file(path, rest);
    Failure::Refused
}

// Says it of the file, which cannot be used.
pub fn unusable(path: &[u8], rest: &[u8]) -> Failure
    ensures { result ≡ Failure.Unusable }
{
    of_file(path, rest);
    Failure::Unusable
}
