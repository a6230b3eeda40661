//! What is true of every request.
ghost use Rattle.std.specs.Prelude.{◌≡◌, ◌≢◌, ◌++◌, true, false, if◌then◌else◌, List, ℕ, codes, map};
ghost use Rattle.std.specs.Str.{bytes_eq};
ghost use Rattle.httparse.specs.Grammar.{RequestHead};
ghost use Rattle.httparse.specs.Spans.{name_and_value};
ghost use Rattle.office_mail.specs.Lists.{Lists};
ghost use Rattle.office_http_requests.specs.Asked.{PostsAt, TellsAt, asked_by_table, asked_of, framing_of, is_hosted, path_of, post_asked, post_framed};
ghost use Rattle.office_http_requests.specs.Routes.{IsBeside, new_fronts, new_paths, six_routes, ten_routes, twelve_routes};
ghost use Rattle.office_http_requests.specs.declared.reply.Refusal.TheVariants.{BadRequest, OnlyPost};
ghost use Rattle.office_http_requests.specs.declared.request.Action.{Action};
ghost use Rattle.office_http_requests.specs.declared.request.Action.TheVariants.{Breaks, Look, Try};
ghost use Rattle.office_http_requests.specs.declared.request.Asked.TheVariants.{Post, Refused};
ghost use Rattle.office_http_requests.specs.declared.request.Framing.{Framing};
ghost use Rattle.office_http_requests.specs.declared.request.Page.TheVariants.{Waiting, Runs, Kept, Hints, Unstable, Propose};
ghost use Rattle.office_http_requests.specs.declared.request.Posted.{Posted};

/// The routes that came behind the first six leave what the other paths ask for, of heads that name their host as they
/// should.
pub fn old_requests_stay()
    // Those behind the first twelve, which are `/lint`, `/hints`, `/unstable`, `/propose` and `/breaks`, and those below
    // `/mail/`, `/bag/`, `/order/`, `/try/`, `/propose/` and `/breaks/`, leave what all other paths ask for.
    ensures newer { (setup : Lists) (head : RequestHead) → is_hosted head ≡ true → IsBeside new_paths new_fronts (path_of head.target) → asked_of setup head ≡ asked_by_table twelve_routes setup head }
    // So do `/try` and those below `/why/`.
    ensures later { (setup : Lists) (head : RequestHead) → is_hosted head ≡ true → IsBeside new_paths new_fronts (path_of head.target) → path_of head.target ≢ codes "/try" → ((rest : List ℕ) → path_of head.target ≢ codes "/why/" ++ rest) → asked_of setup head ≡ asked_by_table ten_routes setup head }
    // So do `/waiting`, `/runs`, `/kept` and those below `/kept/`.
    ensures others { (setup : Lists) (head : RequestHead) → is_hosted head ≡ true → IsBeside new_paths new_fronts (path_of head.target) → path_of head.target ≢ codes "/waiting" → path_of head.target ≢ codes "/runs" → path_of head.target ≢ codes "/kept" → ((rest : List ℕ) → path_of head.target ≢ codes "/kept/" ++ rest)
        → path_of head.target ≢ codes "/try" → ((rest : List ℕ) → path_of head.target ≢ codes "/why/" ++ rest) → asked_of setup head ≡ asked_by_table six_routes setup head }
    // There a GET asks what a run waits for, for the finished runs, how much mail is kept, for the hints in force, for
    // unstable, or for hints that move groups, and other methods are refused.
    ensures waiting { TellsAt (codes "/waiting") Waiting }
    ensures runs { TellsAt (codes "/runs") Runs }
    ensures kept { TellsAt (codes "/kept") Kept }
    ensures in_force { TellsAt (codes "/hints") Hints }
    ensures unstable { TellsAt (codes "/unstable") Unstable }
    ensures proposals { TellsAt (codes "/propose") Propose }
    // There a POST asks for a trial of hints, how a delivery would be answered, or what a change breaks.
    ensures hints { PostsAt (codes "/try") Try }
    ensures looks { PostsAt (codes "/lint") Look }
    ensures breaks { PostsAt (codes "/breaks") Breaks }
    // A head that names no host by HTTP/1.1, or several, is refused.
    ensures hostless { (setup : Lists) (head : RequestHead) → is_hosted head ≡ false → asked_of setup head ≡ Refused BadRequest }
    // And so does the refusal of what a page in a browser posts: without its fields a POST asks for what its body's do.
    ensures unforeign { (action : Action) (method : List ℕ) (minor : ℕ) (framing : Framing) → framing.foreign ≡ false → post_asked action method minor framing ≡ (if bytes_eq method (codes "POST") then post_framed action minor framing else Refused OnlyPost) }
{}

/// What a page in a browser posts is never done, whatever the path.
pub fn pages_post_nothing()
    ensures { (setup : Lists) (head : RequestHead) (p : Posted) → (framing_of (map name_and_value head.fields)).foreign ≡ true → asked_of setup head ≢ Post p }
{}
