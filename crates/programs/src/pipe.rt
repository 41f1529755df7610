//! A program's output, which may be a pipe that nobody reads any more.

ghost use Rattle.std.specs.Prelude.{◌≡◌, ◌||◌, false};
ghost use Rattle.std.specs.Io.{WritesAtMost};
ghost use Rattle.std.specs.Io.KnownBytes.{Keeps, WriteAppends};
ghost use Rattle.programs.specs.Pipes.{is_broken_pipe, is_closed, pipe_contents, pipe_writer};

use std::io::{self, ErrorKind, Write};

/// A writer that remembers whether it is a pipe whose reader has gone, as in `git check-names .. | head -1`.
#[derive(Drop)]
pub struct Pipe<W> {
    writer: W,
    closed: bool,
}

impl<W: Write> Pipe<W> {
    /// What is written goes to `writer`, and nothing shows yet that its reader has gone.
    pub fn new(writer: W) -> Pipe<W>
        ensures writer { pipe_writer result ≡ writer }
        ensures closed { is_closed result ≡ false }
    {
        Pipe {
            writer,
            closed: false,
        }
    }

    /// Whether a write has failed because the reader has gone.
    pub fn is_closed(&self) -> bool
        ensures { result ≡ is_closed self.now }
    {
        matches!(self, Pipe { closed: true, .. })
    }
}

impl<W: Write> Write for Pipe<W> {
    ghost contents = { pipe_contents W.contents };

    fn write(&mut self, buf: &[u8]) -> io::Result<usize>
        ensures bound { WritesAtMost result buf.now }
        ensures bytes { WriteAppends (pipe_contents W.contents self.old)
            (pipe_contents W.contents self.new) result buf.now }
        ensures closed { is_closed self.new ≡ (is_closed self.old || is_broken_pipe result) }
    {
        let written = self.writer.write(buf);
        self.closed |= is_broken_pipe(&written);
        written
    }

    fn flush(&mut self) -> io::Result<()>
        ensures bytes { Keeps (pipe_contents W.contents self.old) (pipe_contents W.contents self.new) }
        ensures closed { is_closed self.new ≡ (is_closed self.old || is_broken_pipe result) }
    {
        let flushed = self.writer.flush();
        self.closed |= is_broken_pipe(&flushed);
        flushed
    }
}

/// Whether a write failed because nobody reads the pipe.
fn is_broken_pipe<T>(written: &io::Result<T>) -> bool
    ensures { result ≡ is_broken_pipe written.now }
{
    match written {
        Ok(_) => false,
        Err(e) => e.kind() == ErrorKind::BrokenPipe,
    }
}
