ghost use Rattle.std.specs.Prelude.{◌≡◌};
ghost use Rattle.http_calls.specs.Pages.{page_of, page_methods, allows};

use crate::method::Method;
use crate::problem::Allowed;

/// What a peer has besides keys.
#[derive(Clone, Copy, Debug, PartialEq, Eq)]
pub enum Page {
    /// `/`: a page for people.
    Home,
    /// `/v1/keys`: the keys of this peer, in order.
    List,
    /// `/v1/status`
    Status,
    /// `/metrics`
    Metrics,
    /// `/healthz`
    Health,
    /// `/readyz`
    Ready,
    /// `/v1/backup`
    Backup,
    /// `/v1/members`: a change of the members.
    Members,
    /// `/v1/stop`
    Stop,
}

impl Page {
    /// The page of this path, if it is one.
    pub fn of(path: &[u8]) -> Option<Page>
        ensures { result ≡ page_of path.now }
    {
        if path == b"/".as_slice() {
            Some(Page::Home)
        } else if path == b"/v1/keys".as_slice() {
            Some(Page::List)
        } else if path == b"/v1/status".as_slice() {
            Some(Page::Status)
        } else if path == b"/metrics".as_slice() {
            Some(Page::Metrics)
        } else if path == b"/healthz".as_slice() {
            Some(Page::Health)
        } else if path == b"/readyz".as_slice() {
            Some(Page::Ready)
        } else if path == b"/v1/backup".as_slice() {
            Some(Page::Backup)
        } else if path == b"/v1/members".as_slice() {
            Some(Page::Members)
        } else if path == b"/v1/stop".as_slice() {
            Some(Page::Stop)
        } else {
            None
        }
    }

    /// The methods of the page.
    pub fn methods(self) -> Allowed
        ensures { result ≡ page_methods self }
    {
        match self {
            Page::Members => Allowed::Puts,
            Page::Stop => Allowed::Posts,
            _ => Allowed::Reads,
        }
    }

    /// Whether the page has this method.
    pub fn allows(self, method: Method) -> bool
        ensures { result ≡ allows (page_methods self) method }
    {
        match self.methods() {
            Allowed::Puts => matches!(method, Method::Put),
            Allowed::Posts => matches!(method, Method::Post),
            Allowed::Reads => matches!(method, Method::Get | Method::Head),
            Allowed::Keys => !matches!(method, Method::Other),
        }
    }
}
