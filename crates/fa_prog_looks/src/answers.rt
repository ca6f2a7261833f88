//! Which request gets which answer.
ghost use Rattle.std.specs.Prelude.{◌≡◌};
ghost use Rattle.fa_prog_looks.specs.Answers.{answer_for, is_look};

use crate::shown::Text;

/// What a request is answered with.
#[derive(Clone, Copy)]
pub(crate) enum Answer {
    /// The page.
    Page,
    /// A text.
    Text(Text),
    /// 404: there is no such path.
    NoPath,
    /// 405: nothing but GET and HEAD is answered.
    NoMethod,
}

/// What a request for a path is answered with. Who accepts plain text alone gets lines for the page.
pub(crate) fn answer_to(method: &str, path: &str, wants_lines: bool) -> Answer
    ensures { result ≡ answer_for method.now path.now wants_lines }
{
    if !is_look(method) {
        return Answer::NoMethod;
    }
    match path {
        "/" => {
            if wants_lines {
                Answer::Text(Text::Lines)
            } else {
                Answer::Page
            }
        }
        "/metrics" => Answer::Text(Text::Metrics),
        "/status.json" => Answer::Text(Text::Document),
        _ => Answer::NoPath,
    }
}

/// Whether a method only looks.
fn is_look(method: &str) -> bool
    ensures { result ≡ is_look method.now }
{
    method == "GET" || method == "HEAD"
}
