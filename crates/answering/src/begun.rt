// The response to a message, or what is to be forwarded or rendered.
use crate::content::Content;
use crate::forward::Forward;
use crate::refused::Refused;
use crate::rendering::Rendering;
use http::Response;

/// A message's response; or what is to be forwarded to have one, or to be rendered, where that may take long.
#[derive(Drop)]
pub enum Begun {
    Answered(Response<Content>),
    /// An admin call was refused. In a box, since most messages are answered.
    Refused(Box<Refused>),
    ToForward(Forward),
    ToRender(Rendering),
}
