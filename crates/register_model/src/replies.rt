ghost use Rattle.std.specs.Prelude.{◌≡◌, ◌↔◌, true};
ghost use Rattle.ens_base.specs.declared.reply.Reply.{Reply};
ghost use Rattle.register_model.specs.Histories.{IsDone, IsRefused, is_done, is_refused};

use ens_base::Reply;

/// Returns whether a reply completes its call.
pub fn is_done(reply: &Reply) -> bool
    ensures { result ≡ is_done reply.now }
{
    match reply {
        Reply::Value(_, _) | Reply::NotFound | Reply::Ok(_) | Reply::Failed => true,
        Reply::Unavailable | Reply::Busy | Reply::Lost | Reply::Timeout => false,
    }
}

/// Returns whether a reply refuses its call.
pub fn is_refused(reply: &Reply) -> bool
    ensures { result ≡ is_refused reply.now }
{
    match reply {
        Reply::Unavailable | Reply::Busy | Reply::Lost => true,
        Reply::Value(_, _) | Reply::NotFound | Reply::Ok(_) | Reply::Failed | Reply::Timeout =>
            false,
    }
}

/// The tests are those of a legal history.
pub fn the_tests_are_those_of_a_history()
    ensures done { (reply : Reply) → (is_done reply ≡ true) ↔ IsDone reply }
    ensures refused { (reply : Reply) → (is_refused reply ≡ true) ↔ IsRefused reply }
{}
