//! Writes trees out, so that tests can compare them. Each construct has its place after an `@`.
use hept_ast::{
    BinaryOp, Block, Const, Decl, Equation, Escape, Expr, Form, MergeBranch, Name, Place, Plain,
    Program, State, Tag, Ty, UnaryOp,
};
use std::alloc::{AllocError, Global};

/// What was written so far.
#[derive(Drop)]
pub struct Page {
    alloc: Global,
    pub bytes: Vec<u8>,
}

impl Page {
    pub fn new(alloc: Global) -> Page {
        let bytes = Vec::new(alloc);
        Page { alloc, bytes }
    }

    fn text(&mut self, text: &[u8]) -> Result<(), AllocError> {
        self.bytes.extend_from_slice(text)
    }

    fn number(&mut self, number: i32) -> Result<(), AllocError> {
        let text = format!(in self.alloc; "{number}")?;
        self.text(text.as_bytes())
    }

    fn place(&mut self, place: Place) -> Result<(), AllocError> {
        let number = place.0;
        let text = format!(in self.alloc; "@{number} ")?;
        self.text(text.as_bytes())
    }

    fn name(&mut self, name: &Name) -> Result<(), AllocError> {
        self.text(name.bytes())?;
        self.text(b" ")
    }

    fn names(&mut self, names: &[Name]) -> Result<(), AllocError> {
        for name in names {
            self.name(name)?;
        }
        Ok(())
    }

    fn constant(&mut self, value: &Const) -> Result<(), AllocError> {
        match value {
            Const::Number(number) => {
                self.number(*number)?;
                self.text(b" ")
            }
            Const::Truth(true) => self.text(b"true "),
            Const::Truth(false) => self.text(b"false "),
            Const::Constructor(name) => self.name(name),
        }
    }

    fn tag(&mut self, tag: &Tag) -> Result<(), AllocError> {
        match tag {
            Tag::Truth(true) => self.text(b"true "),
            Tag::Truth(false) => self.text(b"false "),
            Tag::Constructor(name) => self.name(name),
        }
    }

    fn plain(&mut self, plain: &Plain) -> Result<(), AllocError> {
        match plain {
            Plain::Int => self.text(b"int "),
            Plain::Bool => self.text(b"bool "),
            Plain::Named(name) => self.name(name),
        }
    }

    fn declaration(&mut self, decl: &Decl) -> Result<(), AllocError> {
        self.name(&decl.name)?;
        self.place(decl.place)?;
        match &decl.ty {
            Ty::Plain(plain) => self.plain(plain)?,
            Ty::Future(plain) => {
                self.text(b"future ")?;
                self.plain(plain)?;
            }
        }
        match &decl.init {
            None => Ok(()),
            Some(init) => {
                self.text(if init.ready { b"= async " } else { b"= " })?;
                self.constant(&init.value)
            }
        }
    }

    fn declarations(&mut self, decls: &[Decl]) -> Result<(), AllocError> {
        for decl in decls {
            self.declaration(decl)?;
        }
        self.text(b"; ")
    }
}

fn infix(sign: BinaryOp) -> &'static [u8] {
    match sign {
        BinaryOp::Add => b"+",
        BinaryOp::Sub => b"-",
        BinaryOp::Mul => b"*",
        BinaryOp::Div => b"/",
        BinaryOp::Rem => b"%",
        BinaryOp::Or => b"or",
        BinaryOp::And => b"&",
        BinaryOp::Eq => b"=",
        BinaryOp::Ne => b"<>",
        BinaryOp::Lt => b"<",
        BinaryOp::Le => b"<=",
        BinaryOp::Gt => b">",
        BinaryOp::Ge => b">=",
    }
}

#[cycle(showing)]
fn expression(page: &mut Page, e: &Expr) -> Result<(), AllocError> {
    page.text(b"(")?;
    form(page, &e.form)?;
    page.place(e.place)?;
    page.text(b") ")
}

#[cycle(showing)]
fn form(page: &mut Page, form: &Form) -> Result<(), AllocError> {
    match form {
        Form::Const(value) => page.constant(value),
        Form::Var(name) => page.name(name),
        Form::Last(name) => {
            page.text(b"last ")?;
            page.name(name)
        }
        Form::Unary(sign, operand) => {
            page.text(match sign {
                UnaryOp::Minus => b"- ",
                UnaryOp::Not => b"not ",
            })?;
            expression(page, operand.get())
        }
        Form::Binary(sign, left, right) => {
            page.text(infix(*sign))?;
            page.text(b" ")?;
            expression(page, left.get())?;
            expression(page, right.get())
        }
        Form::If(condition, yes, no) => {
            page.text(b"if ")?;
            expression(page, condition.get())?;
            expression(page, yes.get())?;
            expression(page, no.get())
        }
        Form::Fby(left, right) => {
            page.text(b"fby ")?;
            expression(page, left.get())?;
            expression(page, right.get())
        }
        Form::Pre(operand) => {
            page.text(b"pre ")?;
            expression(page, operand.get())
        }
        Form::Arrow(left, right) => {
            page.text(b"-> ")?;
            expression(page, left.get())?;
            expression(page, right.get())
        }
        Form::When(operand, tag, name) => {
            page.text(b"when ")?;
            page.tag(tag)?;
            page.name(name)?;
            expression(page, operand.get())
        }
        Form::Merge(name, branches) => {
            page.text(b"merge ")?;
            page.name(name)?;
            merge_branches(page, branches.as_slice())
        }
        Form::Call(name, args) => {
            page.text(b"call ")?;
            page.name(name)?;
            expressions(page, args.as_slice())
        }
        Form::AsyncCall(size, name, args) => {
            page.text(b"async ")?;
            page.place(Place(*size))?;
            page.name(name)?;
            expressions(page, args.as_slice())
        }
        Form::AsyncConst(value) => {
            page.text(b"async ")?;
            page.constant(value)
        }
        Form::Get(operand) => {
            page.text(b"! ")?;
            expression(page, operand.get())
        }
    }
}

#[cycle(showing)]
fn expressions(page: &mut Page, all: &[Expr]) -> Result<(), AllocError> {
    for e in all {
        expression(page, e)?;
    }
    Ok(())
}

#[cycle(showing)]
fn merge_branches(page: &mut Page, all: &[MergeBranch]) -> Result<(), AllocError> {
    for branch in all {
        page.place(branch.place)?;
        page.tag(&branch.tag)?;
        expression(page, &branch.value)?;
    }
    Ok(())
}

fn escapes(page: &mut Page, all: &[Escape]) -> Result<(), AllocError> {
    for escape in all {
        page.place(escape.place)?;
        expression(page, &escape.condition)?;
        page.text(if escape.restart {
            b"then "
        } else {
            b"continue "
        })?;
        page.name(&escape.target)?;
    }
    Ok(())
}

#[cycle(showing_blocks)]
fn block(page: &mut Page, block: &Block) -> Result<(), AllocError> {
    page.declarations(block.locals.as_slice())?;
    for e in block.body.as_slice() {
        equation(page, e)?;
    }
    Ok(())
}

#[cycle(showing_blocks)]
fn equation(page: &mut Page, e: &Equation) -> Result<(), AllocError> {
    match e {
        Equation::Define { place, left, right } => {
            page.text(b"define ")?;
            page.place(*place)?;
            page.names(left.as_slice())?;
            expression(page, right)
        }
        Equation::Switch {
            place,
            on,
            branches,
        } => {
            page.text(b"switch ")?;
            page.place(*place)?;
            expression(page, on)?;
            for branch in branches.as_slice() {
                page.place(branch.place)?;
                page.tag(&branch.tag)?;
                block(page, &branch.block)?;
            }
            page.text(b"end ")
        }
        Equation::Reset {
            place,
            block: inner,
            every,
        } => {
            page.text(b"reset ")?;
            page.place(*place)?;
            block(page, inner.get())?;
            page.text(b"every ")?;
            expression(page, every)
        }
        Equation::Automaton { place, states } => {
            page.text(b"automaton ")?;
            page.place(*place)?;
            for s in states.as_slice() {
                state(page, s)?;
            }
            page.text(b"end ")
        }
    }
}

#[cycle(showing_blocks)]
fn state(page: &mut Page, state: &State) -> Result<(), AllocError> {
    page.text(b"state ")?;
    page.place(state.place)?;
    page.name(&state.name)?;
    block(page, &state.block)?;
    page.text(b"until ")?;
    escapes(page, state.weak.as_slice())?;
    page.text(b"unless ")?;
    escapes(page, state.strong.as_slice())
}

/// Writes a program out.
pub fn show(page: &mut Page, program: &Program) -> Result<(), AllocError> {
    for dec in program.types.as_slice() {
        page.text(b"type ")?;
        page.place(dec.place)?;
        page.name(&dec.name)?;
        page.names(dec.constructors.as_slice())?;
    }
    for node in program.nodes.as_slice() {
        page.text(b"node ")?;
        page.place(node.place)?;
        page.name(&node.name)?;
        page.declarations(node.inputs.as_slice())?;
        page.declarations(node.outputs.as_slice())?;
        block(page, &node.block)?;
    }
    Ok(())
}
