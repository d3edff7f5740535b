// The body of a response.
ghost use Rattle.std.specs.Prelude.{◌≡◌, ◌+◌, ◌^◌, ◌<◌, ◌≤◌, [], length, IfOk};
ghost use Rattle.http1.specs.Decoder.{decoder_for};
ghost use Rattle.esm_invoke.specs.Response.{limits};
ghost use Rattle.esm_invoke.specs.ResponseRead.{Awaits, TakesPiece, TakesStep, HasRead};

use crate::head::Head;
use esm_model::{MAX_BODY, MAX_HEAD, MAX_HEADER_LINES, MAX_RESPONSE, OutOfMemory};
use http1::Limits;
use http1::decode::{Decoded, Decoder};
use httparse::spans::{EMPTY_HEADER_SPAN, Span};
use std::alloc::Global;

/// Reads a body as its bytes arrive: chunked, of a stated length, or up to the link's end.
#[derive(Drop)]
pub struct BodyReader {
    pub head: Head,
    pub decoder: Decoder,
    /// How many bytes of the response were decoded.
    pub at: usize,
    /// The content that the body's bytes gave so far.
    pub content: Vec<u8>,
}

/// What one call of the decoder found.
#[derive(Clone, Copy)]
pub enum Step {
    /// A piece of the content.
    Data,
    /// The bytes are used up, and the body continues.
    More,
    /// The body is whole.
    Whole,
    /// No continuation is a body within the limits.
    Never,
}

/// What the bytes so far hold.
#[derive(Clone, Copy)]
pub enum Progress {
    /// The body continues.
    More,
    /// The body is whole.
    Whole,
    /// No continuation is a body within the limits.
    Never,
}

impl BodyReader {
    /// Makes a reader of the body that follows the head.
    pub fn new(alloc: Global, head: Head) -> Self
        ensures head { result.head ≡ head }
        ensures decoder { result.decoder ≡ decoder_for limits head.framing }
        ensures at { result.at ≡ head.len }
        ensures content { result.content.items ≡ [] }
    {
        let limits = Limits {
            max_head_len: MAX_HEAD,
            max_extensions_len: MAX_RESPONSE,
            max_trailers_len: MAX_HEAD,
        };
        BodyReader {
            head,
            decoder: Decoder::new(head.framing, &limits),
            at: head.len,
            content: Vec::new(alloc),
        }
    }

    /// Continues in the bytes of the response, which extend those of the call before. `OutOfMemory` if an allocation failed.
    pub fn advance(&mut self, bytes: &[u8]) -> Result<Progress, OutOfMemory>
        requires { Awaits bytes.now self.old }
        ensures head { self.new.head ≡ self.old.head }
        ensures read { IfOk result (HasRead bytes.now self.new) }
    {
        loop {
            match self.step(bytes)? {
                Step::Data => {}
                Step::More => return Ok(Progress::More),
                Step::Whole => return Ok(Progress::Whole),
                Step::Never => return Ok(Progress::Never),
            }
        }
    }

    /// Reads up to the end of the next piece of the content.
    fn step(&mut self, bytes: &[u8]) -> Result<Step, OutOfMemory>
        requires { Awaits bytes.now self.old }
        ensures head { self.new.head ≡ self.old.head }
        ensures taken { IfOk result (TakesStep bytes.now self.old self.new) }
    {
        let (_, input) = bytes.split_at(self.at);
        let mut trailers = [EMPTY_HEADER_SPAN; MAX_HEADER_LINES];
        match self.decoder.decode(input, &mut trailers) {
            Ok(Decoded::Data(span)) => self.take(input, span),
            Ok(Decoded::NeedMore(len)) => {
                self.at += len;
                Ok(Step::More)
            }
            Ok(Decoded::End { len, .. }) => {
                self.at += len;
                Ok(if self.at <= MAX_RESPONSE {
                    Step::Whole
                } else {
                    Step::Never
                })
            }
            Err(_) => Ok(Step::Never),
        }
    }

    /// Takes a piece of the content, unless it makes the body too long.
    fn take(&mut self, input: &[u8], span: Span) -> Result<Step, OutOfMemory>
        requires small { length self.old.content.items ≤ MAX_BODY }
        requires ordered { span.start ≤ span.end }
        requires within { span.end ≤ length input.now }
        requires room { self.old.at + length input.now < 2 ^ 64 }
        ensures head { self.new.head ≡ self.old.head }
        ensures decoder { self.new.decoder ≡ self.old.decoder }
        ensures piece { IfOk result (TakesPiece input.now span self.old self.new) }
    {
        let piece = span.of(input);
        if piece.len() > MAX_BODY - self.content.len() {
            return Ok(Step::Never);
        }
        self.content.extend_from_slice(piece)?;
        self.at += span.end;
        Ok(Step::Data)
    }
}
