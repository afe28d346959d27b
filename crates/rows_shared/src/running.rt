// The loop over the lines.
use std::io;

/// What answers the lines of a program of rows.
pub trait Rows {
    /// Appends the answer of a line, or fails where no call takes it.
    fn answer(&mut self, rt: &HostRuntime, out: &mut String, line: &str) -> Option<()>;

    /// Whether each line is printed before its answer.
    fn shows_lines(&self) -> bool {
        true
    }
}

/// Answers each line of standard input, and prints the answer, after the line where lines are shown.
pub fn run<R: Rows>(rt: &HostRuntime, rows: &mut R) -> io::Result<()> {
    let alloc = rt.alloc();
    for line in rt.lines(alloc) {
        let line = line?;
        let mut out = String::new(alloc);
        if rows.answer(rt, &mut out, line.as_str()).is_none() {
            out.push_str("refused")?;
        }
        if rows.shows_lines() {
            println!(rt; "{line} = {out}")?;
        } else {
            println!(rt; "{out}")?;
        }
    }
    Ok(())
}
