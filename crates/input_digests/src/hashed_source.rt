//! A source whose octets are hashed as they are read.

ghost use Rattle.std.specs.Prelude.{◌≡◌, ◌<◌, ℕ, All, List, Option, None, IfOk, OnErr, false};
ghost use Rattle.input_digests.specs.HashedTexts.{HasHashed, IsOfSession, LacksDigest};

use crate::front_digest::FrontDigest;
use ipfix_session::laws::whole_octets_are_messages;
use ipfix_session::{FullReport, MessageCounter, ReadError, Source};
use std::alloc::{AllocError, Global};
use std::io::ErrorKind;
use std::marker::{Brand, PhantomData};

/// What the source at each place holds before its first read, if it shows that.
pub trait Start {
    ghost texts: { ℕ → Option (List ℕ) };
}

impl Start for Brand {
    ghost texts = { λ _. None };
}

/// A source, its place among others, and the digest of what it gave. When it has shown its end, all its messages
/// count, and it keeps no octet of them.
#[derive(Drop)]
pub struct HashedSource<S: Source, T: Start> {
    pub source: S,
    pub place: usize,
    /// Whether memory was refused for octets that it gave. Then its digest isn't known.
    pub lost: bool,
    digest: FrontDigest,
    messages: MessageCounter,
    start: PhantomData<T>,
    ghost hashed: { ∥ (lost ≡ false → HasHashed digest messages (T.texts place) (S.seen source)) ∥₁ },
}

impl<S: Source + Drop, T: Start> HashedSource<S, T> {
    /// A source of which nothing was read, and which has this place. It takes no memory before its first octet.
    pub fn new(alloc: Global, source: S, place: usize) -> Self
        requires { (S.seen source).text ≡ T.texts place }
        ensures source { result.source ≡ source }
        ensures place { result.place ≡ place }
        ensures kept { result.lost ≡ false }
    {
        HashedSource {
            source,
            place,
            lost: false,
            digest: FrontDigest::new(alloc),
            messages: MessageCounter::new(),
            start: PhantomData,
        }
    }

    /// The source after its session, of which this is the report, and the digest of the messages that count. An `Err`
    /// is memory that was refused for its octets; or a report of a fault of a message that came after the end of the
    /// source, as no session makes it.
    pub fn finish(self, full: &FullReport) -> Result<FinishedSource<S>, AllocError>
        ensures source { IfOk result (λ f. f.source ≡ self.source) }
        ensures digest { IfOk result
            (λ f. IsOfSession S.seen (T.texts self.place) self.source full.now f.sha256) }
        ensures none { OnErr result
            (LacksDigest S.seen (T.texts self.place) self.lost self.source full.now) }
    {
        whole_octets_are_messages();
        let HashedSource {
            source,
            digest,
            lost,
            ..
        } = self;
        if lost {
            return Err(AllocError);
        }
        match digest.finish(full.stopped_at.octet) {
            Some(sha256) => Ok(FinishedSource { source, sha256 }),
            None => Err(AllocError),
        }
    }
}

/// A source after its session, and the SHA-256 of the messages of that which count.
#[derive(Drop)]
pub struct FinishedSource<S> {
    pub source: S,
    pub sha256: [u8; 32],
}

// What a slice has are octets. It does nothing.
fn are_octets(slice: &[u8])
    ensures { All (λ octet. octet < 256) slice.now }
{}

impl<S: Source, T: Start> Source for HashedSource<S, T> {
    ghost seen = { λ s. S.seen s.source };

    ghost failure = { λ s. S.failure s.source };

    ghost ended_is_end = { λ s e. S.ended_is_end s.source e };

    fn read(&mut self, buffer: &mut [u8]) -> Result<usize, ReadError> {
        let count = self.source.read(buffer)?;
        let piece = &buffer[..count];
        are_octets(piece);
        self.messages.read(piece);
        let lost = self.digest.read(piece).is_err();
        self.lost |= lost;
        if count > 0 || buffer.is_empty() {
            return Ok(count);
        }
        self.digest.settle(self.messages.octets());
        Ok(count)
    }

    fn failure(&self) -> Option<ErrorKind> {
        self.source.failure()
    }
}
