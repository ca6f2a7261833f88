//! The answers of the second listener, as HTTP has them.
use crate::answers::{Answer, answer_to};
use crate::shown::{Shown, Text};
use bytes::{BufMut, Bytes};
use http::{HeaderMap, HeaderValue, Request, StatusCode, header};
use http_server::{Response, Service};
use std::alloc::AllocError;

/// Answers requests with texts. Each answer ends its connection.
#[derive(Drop)]
pub(crate) struct Answering<'a, T> {
    pub(crate) shown: &'a T,
}

impl<T: Shown> Service for Answering<'_, T> {
    ghost answers = { λ old request response new. Unit {0} };

    fn call(
        &mut self,
        request: &Request<Bytes>,
        response: &mut Response,
    ) -> Result<(), AllocError> {
        let answer = answer_to(
            request.method().as_str(),
            request.uri().path(),
            wants_lines(request.headers()),
        );
        response.status = status_of(answer);
        response.add_header(header::CONTENT_TYPE, type_of(answer))?;
        response.add_header(header::CACHE_CONTROL, HeaderValue::from_static("no-store"))?;
        response.add_header(header::CONNECTION, HeaderValue::from_static("close"))?;
        if matches!(answer, Answer::NoMethod) {
            response.add_header(header::ALLOW, HeaderValue::from_static("GET, HEAD"))?;
        }
        match answer {
            Answer::Page => response.body.put_slice(self.shown.page().as_bytes()),
            Answer::Text(text) => {
                let text = self.shown.text(text)?;
                response.body.put_slice(text.as_bytes())
            }
            Answer::NoPath => response
                .body
                .put_slice(b"there is /, /metrics and /status.json\n"),
            Answer::NoMethod => response.body.put_slice(b"there is GET and HEAD\n"),
        }
    }
}

/// Whether plain text alone is accepted.
fn wants_lines(headers: &HeaderMap<HeaderValue>) -> bool {
    match headers.get(header::ACCEPT) {
        Some(value) => value.as_bytes() == b"text/plain".as_slice(),
        None => false,
    }
}

/// The status of an answer.
fn status_of(answer: Answer) -> StatusCode {
    match answer {
        Answer::Page | Answer::Text(_) => StatusCode::OK,
        Answer::NoPath => StatusCode::NOT_FOUND,
        Answer::NoMethod => StatusCode::METHOD_NOT_ALLOWED,
    }
}

/// The type of an answer.
fn type_of(answer: Answer) -> HeaderValue {
    match answer {
        Answer::Page => HeaderValue::from_static("text/html; charset=utf-8"),
        Answer::Text(Text::Metrics) => {
            HeaderValue::from_static("text/plain; version=0.0.4; charset=utf-8")
        }
        Answer::Text(Text::Document) => HeaderValue::from_static("application/json"),
        Answer::Text(Text::Lines) | Answer::NoPath | Answer::NoMethod => {
            HeaderValue::from_static("text/plain; charset=utf-8")
        }
    }
}
