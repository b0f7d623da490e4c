ghost use Rattle.std.specs.Option.{is_some};
ghost use Rattle.std.specs.Prelude.{◌≡◌, Some, None};
ghost use Rattle.stored_formats.specs.Objects.{object_spelling};
ghost use Rattle.step_plans.specs.Calls.{Find, Enter, Fetch, Put, Hash};
ghost use Rattle.step_plans.specs.Plans.{asked};
ghost use Rattle.peer_machine.specs.Outcomes.{Acts};
ghost use Rattle.peer_spec.specs.Owns.{digested, read, kept, fetched, held, looked_at, looked, found, resealed, entered, written_as, written, confirmed_as, confirmed};

use crate::machine::Machine;
use ens_base::{Bytes, Digest, Entry, Key};
use object_commands::{entry_of, matching};
use peer_spec::{bytes_of, object_of, seen_at};
use phase_rows::Seen;
use std::alloc::Global;
use step_plans::{Outbox, PeerError, Store, Walked};
use stored_formats::{BoxedObject, Object, box_object};

impl<S> Machine<S> {
    #[tactic(auto, using(peer_spec::proofs::Parts::asked_did))]
    fn find<H>(
        &mut self,
        hasher: &mut H,
        alloc: Global,
        out: &Outbox,
        key: &Key,
    ) -> Result<Walked<Option<Entry>>, PeerError>
    where
        S: Store<H>,
        ensures { Acts S.does S.refuses (asked (Find key.now)) self.old hasher.old out.now result self.new hasher.new out.now }
    {
        self.stores.find(hasher, alloc, key)
    }

    #[tactic(auto, using(peer_spec::proofs::Parts::asked_did))]
    fn enter<H>(
        &mut self,
        hasher: &mut H,
        alloc: Global,
        out: &Outbox,
        entry: &Entry,
    ) -> Result<Walked<()>, PeerError>
    where
        S: Store<H>,
        ensures { Acts S.does S.refuses (asked (Enter entry.now)) self.old hasher.old out.now result self.new hasher.new out.now }
    {
        self.stores.enter(hasher, alloc, entry)
    }

    #[tactic(auto, using(peer_spec::proofs::Parts::asked_did))]
    fn fetch<H>(
        &mut self,
        hasher: &mut H,
        alloc: Global,
        out: &Outbox,
        key: &Key,
    ) -> Result<Option<Bytes>, PeerError>
    where
        S: Store<H>,
        ensures { Acts S.does S.refuses (asked (Fetch key.now)) self.old hasher.old out.now result self.new hasher.new out.now }
    {
        self.stores.fetch(hasher, alloc, key)
    }

    #[tactic(auto, using(peer_spec::proofs::Parts::asked_did))]
    fn put<H>(
        &mut self,
        hasher: &mut H,
        alloc: Global,
        out: &Outbox,
        key: &Key,
        bytes: &[u8],
    ) -> Result<(), PeerError>
    where
        S: Store<H>,
        ensures { Acts S.does S.refuses (asked (Put key.now bytes.now)) self.old hasher.old out.now result self.new hasher.new out.now }
    {
        self.stores.put(hasher, alloc, key, bytes)
    }

    #[tactic(auto, using(peer_spec::proofs::Parts::asked_did))]
    fn hash<H>(
        &mut self,
        hasher: &mut H,
        alloc: Global,
        out: &Outbox,
        bytes: &[u8],
    ) -> Result<Digest, PeerError>
    where
        S: Store<H>,
        ensures { Acts S.does S.refuses (asked (Hash bytes.now)) self.old hasher.old out.now result self.new hasher.new out.now }
    {
        self.stores.hash(hasher, alloc, bytes)
    }

    /// Hashes the bytes, if they are an object.
    #[tactic(auto, using(peer_spec::proofs::Parts::cut))]
    fn digest<H>(
        &mut self,
        hasher: &mut H,
        alloc: Global,
        out: &Outbox,
        object: Option<Object>,
        bytes: &[u8],
    ) -> Result<Option<(Object, Digest)>, PeerError>
    where
        S: Store<H>,
        ensures { Acts S.does S.refuses (digested object bytes.now) self.old hasher.old out.now result self.new hasher.new out.now }
    {
        match object {
            None => Ok(None),
            Some(object) => {
                let digest = self.hash(hasher, alloc, out, bytes)?;
                Ok(Some((object, digest)))
            }
        }
    }

    /// Decodes and hashes what the backend returned.
    #[tactic(auto, using(peer_spec::proofs::Parts::cut))]
    fn read<H>(
        &mut self,
        hasher: &mut H,
        alloc: Global,
        out: &Outbox,
        bytes: Option<Bytes>,
    ) -> Result<Option<(Object, Digest)>, PeerError>
    where
        S: Store<H>,
        ensures { Acts S.does S.refuses (read bytes) self.old hasher.old out.now result self.new hasher.new out.now }
    {
        match bytes {
            None => Ok(None),
            Some(bytes) => {
                let object = object_of(alloc, bytes.as_slice())?;
                let kept = self.digest(hasher, alloc, out, object, bytes.as_slice())?;
                Ok(kept)
            }
        }
    }

    /// Returns the object that the backend keeps under the key, with the digest of its bytes.
    #[tactic(auto, using(peer_spec::proofs::Parts::cut))]
    fn kept<H>(
        &mut self,
        hasher: &mut H,
        alloc: Global,
        out: &Outbox,
        key: &Key,
    ) -> Result<Option<(Object, Digest)>, PeerError>
    where
        S: Store<H>,
        ensures { Acts S.does S.refuses (kept key.now) self.old hasher.old out.now result self.new hasher.new out.now }
    {
        let bytes = self.fetch(hasher, alloc, out, key)?;
        let kept = self.read(hasher, alloc, out, bytes)?;
        Ok(kept)
    }

    /// Rule 28: looks up the object of the key in the backend.
    #[tactic(auto, using(peer_spec::proofs::Parts::cut))]
    pub(crate) fn fetched<H>(
        &mut self,
        hasher: &mut H,
        alloc: Global,
        out: &Outbox,
        key: &Key,
    ) -> Result<Seen, PeerError>
    where
        S: Store<H>,
        ensures { Acts S.does S.refuses (fetched key.now) self.old hasher.old out.now result self.new hasher.new out.now }
    {
        let kept = self.kept(hasher, alloc, out, key)?;
        Ok(Seen::Kept(kept))
    }

    /// Looks up the object of an entry.
    #[tactic(auto, using(peer_spec::proofs::Parts::cut))]
    fn held<H>(
        &mut self,
        hasher: &mut H,
        alloc: Global,
        out: &Outbox,
        key: &Key,
        entry: Option<Entry>,
    ) -> Result<Seen, PeerError>
    where
        S: Store<H>,
        ensures { Acts S.does S.refuses (held key.now entry) self.old hasher.old out.now result self.new hasher.new out.now }
    {
        match entry {
            None => Ok(Seen::Held {
                entry: None,
                object: None,
            }),
            Some(entry) => {
                let kept = self.kept(hasher, alloc, out, key)?;
                let object = box_object(alloc, matching(&entry, kept))?;
                Ok(Seen::Held {
                    entry: Some(entry),
                    object,
                })
            }
        }
    }

    #[tactic(auto, using(peer_spec::proofs::Parts::cut))]
    fn looked_at<H>(
        &mut self,
        hasher: &mut H,
        alloc: Global,
        out: &Outbox,
        key: &Key,
        walked: Walked<Option<Entry>>,
    ) -> Result<Seen, PeerError>
    where
        S: Store<H>,
        ensures { Acts S.does S.refuses (looked_at key.now walked) self.old hasher.old out.now result self.new hasher.new out.now }
    {
        match walked {
            Walked::Broken(at) => Ok(Seen::Damaged(at)),
            Walked::Reached(entry) => {
                let seen = self.held(hasher, alloc, out, key, entry)?;
                Ok(seen)
            }
        }
    }

    /// Rules 21 and 29: looks up the entry and the object of the key.
    #[tactic(auto, using(peer_spec::proofs::Parts::cut))]
    pub(crate) fn looked<H>(
        &mut self,
        hasher: &mut H,
        alloc: Global,
        out: &Outbox,
        key: &Key,
    ) -> Result<Seen, PeerError>
    where
        S: Store<H>,
        ensures { Acts S.does S.refuses (looked key.now) self.old hasher.old out.now result self.new hasher.new out.now }
    {
        let walked = self.find(hasher, alloc, out, key)?;
        let seen = self.looked_at(hasher, alloc, out, key, walked)?;
        Ok(seen)
    }

    /// Rule 22: looks up the entry of the key.
    #[tactic(auto, using(peer_spec::proofs::Parts::cut))]
    pub(crate) fn found<H>(
        &mut self,
        hasher: &mut H,
        alloc: Global,
        out: &Outbox,
        key: &Key,
    ) -> Result<Seen, PeerError>
    where
        S: Store<H>,
        ensures { Acts S.does S.refuses (found key.now) self.old hasher.old out.now result self.new hasher.new out.now }
    {
        let walked = self.find(hasher, alloc, out, key)?;
        Ok(seen_at(walked))
    }

    /// Saves the fact of a peer with a seal again, with the root of the tree as its seal.
    #[tactic(auto, using(peer_spec::proofs::Parts::cut))]
    fn reseal<H>(&mut self, hasher: &mut H, out: &Outbox) -> Result<(), PeerError>
    where
        S: Store<H>,
        ensures { Acts S.does S.refuses (λ x o next. resealed (is_some x.seal) x o next) self.old hasher.old out.now result self.new hasher.new out.now }
    {
        if self.state.seal.is_some() {
            let fact = self.state.fact;
            self.seal(hasher, out, fact)?;
        }
        Ok(())
    }

    /// Puts the bytes of an object whose entry was entered, after the fact is saved in a peer with a
    /// seal.
    #[tactic(auto, using(peer_spec::proofs::Parts::cut))]
    fn entered<H>(
        &mut self,
        hasher: &mut H,
        alloc: Global,
        out: &Outbox,
        object: &Object,
        bytes: &[u8],
        digest: Digest,
        walked: Walked<()>,
    ) -> Result<Seen, PeerError>
    where
        S: Store<H>,
        ensures { Acts S.does S.refuses (entered object.now bytes.now digest walked) self.old hasher.old out.now result self.new hasher.new out.now }
    {
        match walked {
            Walked::Broken(at) => Ok(Seen::Damaged(at)),
            Walked::Reached(()) => {
                self.reseal(hasher, out)?;
                self.put(hasher, alloc, out, &object.key, bytes)?;
                Ok(Seen::Stored(digest))
            }
        }
    }

    /// Writes the object, whose encoding these bytes are, its entry first.
    #[tactic(auto, using(peer_spec::proofs::Parts::cut))]
    fn written_as<H>(
        &mut self,
        hasher: &mut H,
        alloc: Global,
        out: &Outbox,
        object: &Object,
        bytes: &[u8],
    ) -> Result<Seen, PeerError>
    where
        S: Store<H>,
        ensures { Acts S.does S.refuses (written_as object.now bytes.now) self.old hasher.old out.now result self.new hasher.new out.now }
    {
        let digest = self.hash(hasher, alloc, out, bytes)?;
        let entry = entry_of(alloc, object, digest)?;
        let walked = self.enter(hasher, alloc, out, &entry)?;
        let seen = self.entered(hasher, alloc, out, object, bytes, digest, walked)?;
        Ok(seen)
    }

    /// Writes the object, whose encoding these bytes are.
    fn write_bytes<H>(
        &mut self,
        hasher: &mut H,
        alloc: Global,
        out: &Outbox,
        object: &Object,
        bytes: &[u8],
    ) -> Result<Seen, PeerError>
    where
        S: Store<H>,
        requires { bytes.now ≡ object_spelling object.now }
        ensures { Acts S.does S.refuses (written object.now) self.old hasher.old out.now result self.new hasher.new out.now }
    {
        self.written_as(hasher, alloc, out, object, bytes)
    }

    /// Rules 22 and 35: writes the object.
    #[tactic(auto, using(peer_spec::proofs::Parts::cut))]
    pub(crate) fn written<H>(
        &mut self,
        hasher: &mut H,
        alloc: Global,
        out: &Outbox,
        object: &Object,
    ) -> Result<Seen, PeerError>
    where
        S: Store<H>,
        ensures { Acts S.does S.refuses (written object.now) self.old hasher.old out.now result self.new hasher.new out.now }
    {
        let bytes = bytes_of(alloc, object)?;
        match self.write_bytes(hasher, alloc, out, object, &bytes) {
            Ok(seen) => Ok(seen),
            Err(error) => Err(error),
        }
    }

    /// Returns a copy of the object, whose encoding these bytes are, if the entry names it.
    #[tactic(auto, using(peer_spec::proofs::Parts::cut))]
    fn confirmed_as<H>(
        &mut self,
        hasher: &mut H,
        alloc: Global,
        out: &Outbox,
        entry: &Entry,
        object: &Object,
        bytes: &[u8],
    ) -> Result<Option<Object>, PeerError>
    where
        S: Store<H>,
        ensures { Acts S.does S.refuses (confirmed_as entry.now object.now bytes.now) self.old hasher.old out.now result self.new hasher.new out.now }
    {
        let digest = self.hash(hasher, alloc, out, bytes)?;
        let copy = object.copy(alloc)?;
        Ok(matching(entry, Some((copy, digest))))
    }

    /// Returns a copy of the object, whose encoding these bytes are, if the entry names it.
    fn confirm_bytes<H>(
        &mut self,
        hasher: &mut H,
        alloc: Global,
        out: &Outbox,
        entry: &Entry,
        object: &Object,
        bytes: &[u8],
    ) -> Result<Option<Object>, PeerError>
    where
        S: Store<H>,
        requires { bytes.now ≡ object_spelling object.now }
        ensures { Acts S.does S.refuses (confirmed (Some entry.now) (Some object.now)) self.old hasher.old out.now result self.new hasher.new out.now }
    {
        self.confirmed_as(hasher, alloc, out, entry, object, bytes)
    }

    /// Copies the object of a reply, if the entry of the reply names it.
    #[tactic(auto, using(peer_spec::proofs::Parts::cut))]
    fn confirm<H>(
        &mut self,
        hasher: &mut H,
        alloc: Global,
        out: &Outbox,
        entry: &Entry,
        object: &Object,
    ) -> Result<Option<Object>, PeerError>
    where
        S: Store<H>,
        ensures { Acts S.does S.refuses (confirmed (Some entry.now) (Some object.now)) self.old hasher.old out.now result self.new hasher.new out.now }
    {
        let bytes = bytes_of(alloc, object)?;
        match self.confirm_bytes(hasher, alloc, out, entry, object, &bytes) {
            Ok(named) => Ok(named),
            Err(error) => Err(error),
        }
    }

    /// Rule 29: returns a copy of the object of a reply, if the entry of the reply names it.
    #[tactic(auto, using(peer_spec::proofs::Parts::cut))]
    pub(crate) fn confirmed<H>(
        &mut self,
        hasher: &mut H,
        alloc: Global,
        out: &Outbox,
        entry: &Option<Entry>,
        object: &Option<BoxedObject>,
    ) -> Result<Option<Object>, PeerError>
    where
        S: Store<H>,
        ensures { Acts S.does S.refuses (confirmed entry.now object.now) self.old hasher.old out.now result self.new hasher.new out.now }
    {
        match entry {
            None => Ok(None),
            Some(entry) => match object {
                None => Ok(None),
                Some(object) => self.confirm(hasher, alloc, out, entry, object.get()),
            },
        }
    }
}
