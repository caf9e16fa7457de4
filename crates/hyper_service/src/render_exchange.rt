// A response of a site that is rendered beside its connections.
ghost use Rattle.std.specs.Prelude.{◌≡◌, IsSome, Some};

use answering::rendering::Rendering;
use futures::task::{Context, Poll};
use futures::{Future, ready};
use mapping_model::reply::Reply;
use std::alloc::AllocError;

/// What is kept of a request, and what renders its response.
#[derive(Drop)]
pub struct RenderExchange<V> {
    /// `None` once the reply has come.
    rendering: Option<Rendering>,
    run: V,
}

/// What was kept of a request, and the reply that was rendered.
#[derive(Drop)]
pub struct Rendered {
    pub rendering: Rendering,
    pub reply: Result<Reply, AllocError>,
}

impl<V: Drop> RenderExchange<V> {
    pub(crate) fn new(rendering: Rendering, run: V) -> RenderExchange<V>
        ensures { result ≡ record { rendering = Some rendering; run = run } }
    {
        RenderExchange {
            rendering: Some(rendering),
            run,
        }
    }

    /// What is kept of the request, before the reply has come.
    pub(crate) fn into_rendering(self) -> Rendering
        requires { IsSome self.rendering }
        ensures { self.rendering ≡ Some result }
    {
        self.rendering.unwrap()
    }
}

impl<V> Future for RenderExchange<V>
where
    V: Future<Output = Result<Reply, AllocError>>,
{
    type Output = Rendered;

    ghost can_poll = { λ e. IsSome e.rendering × V.can_poll e.run };

    ghost needs = { λ e. V.needs e.run };

    ghost gives = { λ e rendered. (e.rendering ≡ Some rendered.rendering) × V.gives e.run rendered.reply };

    fn poll(&mut self, cx: &mut Context<'_>) -> Poll<Rendered> {
        let reply = ready!(self.run.poll(cx));
        let rendering = self.rendering.take().unwrap();
        Poll::Ready(Rendered { rendering, reply })
    }
}
