use ens_base::{Reply, Value, Version};
use leader_output::Object;

/// What a rule leaves for the rule that runs next on the same key. Between steps it is `Nothing`.
#[derive(Debug, Drop)]
pub enum Pending {
    Nothing,
    /// Rule 31 writes this value, or a tombstone for `None`, upon the parent.
    Write {
        content: Option<Value>,
        parent: Option<Version>,
    },
    /// Rule 32 rewrites this object of an earlier epoch.
    Rewrite(Object),
    /// Rule 33 checks that the epoch still stands, and then gives this reply.
    Check(Reply),
    /// Rule 34 applies the running command to the settled object. `None` means that the key is
    /// absent.
    Apply(Option<Object>),
    /// Rule 35 puts this object upon the parent, for the call of this number. A rewrite has no call.
    Propose {
        object: Object,
        parent: Option<Version>,
        call: Option<u64>,
    },
}
