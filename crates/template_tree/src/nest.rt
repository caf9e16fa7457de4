// The blocks that are open while a template is read.
ghost use Rattle.std.specs.Prelude.{◌≡◌, [], IfOk};
ghost use Rattle.template_tags.specs.Shown.SoundTags.{HasNoElse};
ghost use Rattle.template_tags.specs.Tags.{tag_view};
ghost use Rattle.template_tree.specs.Grammar.{test_block, with_else};
ghost use Rattle.template_tree.specs.Inner.Frames.{head_view, main_view, frame_view, nest_view, block_node};
ghost use Rattle.template_tree.specs.Inner.Frames.{closed_nodes, with_node, with_block, in_else_part, without_block};
ghost use Rattle.template_tree.specs.Inner.Frames.{with_tag, with_token, HasBlock, Allows, AllowsToken, Fit};
ghost use Rattle.template_tree.specs.Inner.Views.{token_view};
ghost use Rattle.template_tree.specs.Parts.{escape_under};
ghost use Rattle.template_tree.specs.Tree.{no_nodes, node_view, nodes_view};

use crate::escape::Escape;
use crate::node::Node;
use crate::tokens::Token;
use std::alloc::{AllocError, Global};
use template_tags::expression::{Datum, Expression};
use template_tags::level::{Block, Level};
use template_tags::tag::{Opening, Tag};

/// How a block begins.
#[derive(Debug, Drop)]
pub enum Head {
    /// An `if`, or an `unless`.
    If { unless: bool, test: Expression },
    Each { over: Datum },
}

/// A block that is open.
#[derive(Debug, Drop)]
pub struct Frame {
    /// The nodes before it in the part of the template that it is in.
    pub before: Vec<Node>,
    pub head: Head,
    /// Its first part, where its else part has begun.
    pub main: Option<Vec<Node>>,
}

/// The blocks that are open, the innermost last, and the nodes after the last of their tags.
#[derive(Debug, Drop)]
pub struct Nest {
    pub levels: Vec<Level>,
    pub frames: Vec<Frame>,
    pub here: Vec<Node>,
}

/// No block and no node.
pub fn empty_nest(alloc: Global) -> Nest
    ensures { nest_view result ≡ record { levels = []; frames = []; here = no_nodes } }
{
    Nest {
        levels: Vec::new(alloc),
        frames: Vec::new(alloc),
        here: Vec::new(alloc),
    }
}

#[tactic(auto, using(crate::proofs::Nests::nodes_push))]
fn with_node(nest: Nest, node: Node) -> Result<Nest, AllocError>
    ensures { IfOk result (λ made. nest_view made ≡ with_node (nest_view nest) (node_view node)) }
{
    let Nest {
        levels,
        frames,
        mut here,
    } = nest;
    here.push(node)?;
    Ok(Nest {
        levels,
        frames,
        here,
    })
}

fn with_block(alloc: Global, nest: Nest, level: Level, head: Head) -> Result<Nest, AllocError>
    ensures { IfOk result (λ made. nest_view made ≡ with_block (nest_view nest) level (head_view head)) }
{
    let Nest {
        mut levels,
        mut frames,
        here,
    } = nest;
    levels.push(level)?;
    frames.push(Frame {
        before: here,
        head,
        main: None,
    })?;
    Ok(Nest {
        levels,
        frames,
        here: Vec::new(alloc),
    })
}

fn with_else(level: Level) -> Level
    ensures { result ≡ with_else level }
{
    Level {
        left: level.left,
        block: level.block,
        parameter: level.parameter,
        in_else: true,
    }
}

fn in_else_part(alloc: Global, nest: Nest) -> Result<Nest, AllocError>
    requires block { HasNoElse (nest_view nest).levels }
    requires fit { Fit (nest_view nest).levels (nest_view nest).frames }
    ensures { IfOk result (λ made. nest_view made ≡ in_else_part (nest_view nest)) }
{
    let Nest {
        mut levels,
        mut frames,
        here,
    } = nest;
    match (levels.pop(), frames.pop()) {
        (Some(level), Some(frame)) => {
            levels.push(with_else(level))?;
            let Frame {
                before,
                head,
                main: _,
            } = frame;
            frames.push(Frame {
                before,
                head,
                main: Some(here),
            })?;
            Ok(Nest {
                levels,
                frames,
                here: Vec::new(alloc),
            })
        }
        _ => unreachable!(),
    }
}

fn block_node(head: Head, main: Option<Vec<Node>>, here: Vec<Node>) -> Node
    ensures { node_view result ≡ block_node (head_view head) (main_view main) (nodes_view here.items) }
{
    match (head, main) {
        (Head::If { unless, test }, None) => Node::If {
            unless,
            test,
            then: here,
        },
        (Head::If { unless, test }, Some(then)) => Node::IfElse {
            unless,
            test,
            then,
            otherwise: here,
        },
        (Head::Each { over }, None) => Node::Each { over, body: here },
        (Head::Each { over }, Some(body)) => Node::EachElse {
            over,
            body,
            otherwise: here,
        },
    }
}

// The nodes round a block whose last part ends.
#[tactic(auto, using(crate::proofs::Nests::nodes_push))]
fn closed_nodes(frame: Frame, here: Vec<Node>) -> Result<Vec<Node>, AllocError>
    ensures { IfOk result (λ made. nodes_view made.items ≡ closed_nodes (frame_view frame) (nodes_view here.items)) }
{
    let Frame {
        mut before,
        head,
        main,
    } = frame;
    before.push(block_node(head, main, here))?;
    Ok(before)
}

fn without_block(nest: Nest) -> Result<Nest, AllocError>
    requires block { HasBlock (nest_view nest).levels }
    requires fit { Fit (nest_view nest).levels (nest_view nest).frames }
    ensures { IfOk result (λ made. nest_view made ≡ without_block (nest_view nest)) }
{
    let Nest {
        mut levels,
        mut frames,
        here,
    } = nest;
    match (levels.pop(), frames.pop()) {
        (Some(_), Some(frame)) => Ok(Nest {
            levels,
            frames,
            here: closed_nodes(frame, here)?,
        }),
        _ => unreachable!(),
    }
}

fn test_block(unless: bool) -> Block
    ensures { result ≡ test_block unless }
{
    if unless { Block::Unless } else { Block::If }
}

fn escape_under(escape: Escape, opening: Opening) -> Escape
    ensures { result ≡ escape_under escape opening }
{
    match (escape, opening) {
        (Escape::Html, Opening::Double) => Escape::Html,
        _ => Escape::Off,
    }
}

fn with_tag(
    alloc: Global,
    escape: Escape,
    left: usize,
    opening: Opening,
    tag: Tag,
    nest: Nest,
) -> Result<Nest, AllocError>
    requires allowed { Allows (nest_view nest).levels (tag_view tag) }
    requires fit { Fit (nest_view nest).levels (nest_view nest).frames }
    ensures { IfOk result (λ made. nest_view made ≡ with_tag escape left opening (tag_view tag) (nest_view nest)) }
{
    match tag {
        Tag::Print(expression) => {
            with_node(nest, Node::Print(escape_under(escape, opening), expression))
        }
        Tag::If { unless, test } => {
            let level = Level {
                left,
                block: test_block(unless),
                parameter: None,
                in_else: false,
            };
            with_block(alloc, nest, level, Head::If { unless, test })
        }
        Tag::Each { over, parameter } => {
            let level = Level {
                left,
                block: Block::Each,
                parameter,
                in_else: false,
            };
            with_block(alloc, nest, level, Head::Each { over })
        }
        Tag::Else => in_else_part(alloc, nest),
        Tag::Close => without_block(nest),
    }
}

/// The blocks after a token at whose begin that many bytes of the text are left.
pub fn with_token(
    alloc: Global,
    escape: Escape,
    left: usize,
    token: Token,
    nest: Nest,
) -> Result<Nest, AllocError>
    requires allowed { AllowsToken (nest_view nest).levels (token_view token) }
    requires fit { Fit (nest_view nest).levels (nest_view nest).frames }
    ensures { IfOk result (λ made. nest_view made ≡ with_token escape left (token_view token) (nest_view nest)) }
{
    match token {
        Token::Text(text) => with_node(nest, Node::Piece(text)),
        Token::Comment => Ok(nest),
        Token::Tag(opening, tag) => with_tag(alloc, escape, left, opening, tag, nest),
    }
}
