// The commands of a text, one by one.

ghost use Rattle.std.specs.Prelude.{ℕ, List, IfErr, OnOk};
ghost use Rattle.rx_text.specs.declared.place.Place.{Place};
ghost use Rattle.cif_syntax.specs.Sentences.{IsCommandAt};
ghost use Rattle.cif_kinds.specs.declared.kinds.CommandKind.TheVariants as kind;
ghost use Rattle.cif_figures.specs.Figures.{CommandOf, command_of, IsFaultOf};
ghost use Rattle.cif_read.specs.States.{IsReader, IsRead, state_of};

use crate::reader::{Open, Reader};
use cif_drawing::TextPlace;
use cif_figures::{
    FigureFault, box_drawn, called_number, definition_closed, definition_opened, label_put,
    layer_set, opened_number, others_lead_on, polygon_drawn, steps_called, wire_drawn,
};
use cif_kinds::{CommandKind, command_kind};
use std::alloc::Global;

impl Reader {
    /// Does what the command says that stands between its first byte and the end behind its semicolon.
    pub fn read_command(
        &mut self,
        alloc: Global,
        text: &[u8],
        first: usize,
        end: usize,
        place: TextPlace,
    ) -> Result<(), FigureFault>
        requires stands { (from : ℕ) × IsCommandAt text.now from first end }
        requires reader { IsReader self.old }
        ensures read { OnOk result ((from : ℕ) (h : IsCommandAt text.now from first end) → IsRead self.old place h.here.command self.new) }
        ensures fault { IfErr result (λ fault. (from : ℕ) (h : IsCommandAt text.now from first end)
            → IsFaultOf (state_of self.old) h.here.command fault) }
    {
        others_lead_on();
        match command_kind(text, first) {
            CommandKind::Empty => Ok(()),
            CommandKind::Comment => Ok(()),
            CommandKind::Opens => self.open(alloc, text, first),
            CommandKind::Closes => self.close(),
            CommandKind::Calls => self.call(alloc, text, first, place),
            CommandKind::Layer => self.set_layer(text, first),
            CommandKind::Box => self.draw_box(alloc, text, first, place),
            CommandKind::Polygon => self.draw_polygon(alloc, text, first, place),
            CommandKind::Wire => self.draw_wire(alloc, text, first, place),
            CommandKind::Extension => self.put_label(text, first, end),
        }
    }

    /// Opens a definition.
    fn open(&mut self, alloc: Global, text: &[u8], first: usize) -> Result<(), FigureFault>
        requires command { (end : ℕ) × CommandOf text.now first end kind.Opens }
        requires reader { IsReader self.old }
        ensures read { OnOk result ((end : ℕ) (c : CommandOf text.now first end kind.Opens) (place : Place)
            → IsRead self.old place (command_of text.now first end kind.Opens c) self.new) }
        ensures fault { IfErr result (λ fault. (end : ℕ) (c : CommandOf text.now first end kind.Opens)
            → IsFaultOf (state_of self.old) (command_of text.now first end kind.Opens c) fault) }
    {
        let again = self.is_defined(opened_number(text, first));
        let found = definition_opened(text, first, again, self.is_open())?;
        self.builder.open(alloc, found.number);
        self.opening = Some(Open {
            number: found.number,
            scale: found.scale,
            outer: self.layer,
        });
        self.layer = None;
        Ok(())
    }

    /// Closes the definition that is open.
    fn close(&mut self) -> Result<(), FigureFault>
        requires reader { IsReader self.old }
        ensures read { OnOk result ((text : List ℕ) (first end : ℕ) (c : CommandOf text first end kind.Closes) (place : Place)
            → IsRead self.old place (command_of text first end kind.Closes c) self.new) }
        ensures fault { IfErr result (λ fault. (text : List ℕ) (first end : ℕ) (c : CommandOf text first end kind.Closes)
            → IsFaultOf (state_of self.old) (command_of text first end kind.Closes c) fault) }
    {
        definition_closed(self.is_open())?;
        self.builder.close()?;
        self.layer = self.outer_layer();
        self.opening = None;
        Ok(())
    }

    /// Calls a symbol.
    fn call(
        &mut self,
        alloc: Global,
        text: &[u8],
        first: usize,
        place: TextPlace,
    ) -> Result<(), FigureFault>
        requires command { (end : ℕ) × CommandOf text.now first end kind.Calls }
        requires reader { IsReader self.old }
        ensures read { OnOk result ((end : ℕ) (c : CommandOf text.now first end kind.Calls)
            → IsRead self.old place (command_of text.now first end kind.Calls c) self.new) }
        ensures fault { IfErr result (λ fault. (end : ℕ) (c : CommandOf text.now first end kind.Calls)
            → IsFaultOf (state_of self.old) (command_of text.now first end kind.Calls c) fault) }
    {
        let number = called_number(text, first);
        let chain = self.builder.chain_of_call(number);
        let steps = steps_called(alloc, text, first, self.scale(), chain)?;
        self.builder.call(alloc, place, number, &steps)?;
        Ok(())
    }

    /// Sets the layer.
    fn set_layer(&mut self, text: &[u8], first: usize) -> Result<(), FigureFault>
        requires command { (end : ℕ) × CommandOf text.now first end kind.Layer }
        requires reader { IsReader self.old }
        ensures read { OnOk result ((end : ℕ) (c : CommandOf text.now first end kind.Layer) (place : Place)
            → IsRead self.old place (command_of text.now first end kind.Layer c) self.new) }
        ensures fault { IfErr result (λ fault. (end : ℕ) (c : CommandOf text.now first end kind.Layer)
            → IsFaultOf (state_of self.old) (command_of text.now first end kind.Layer c) fault) }
    {
        self.layer = Some(layer_set(text, first)?);
        Ok(())
    }

    /// Draws a box.
    fn draw_box(
        &mut self,
        alloc: Global,
        text: &[u8],
        first: usize,
        place: TextPlace,
    ) -> Result<(), FigureFault>
        requires command { (end : ℕ) × CommandOf text.now first end kind.Box }
        requires reader { IsReader self.old }
        ensures read { OnOk result ((end : ℕ) (c : CommandOf text.now first end kind.Box)
            → IsRead self.old place (command_of text.now first end kind.Box c) self.new) }
        ensures fault { IfErr result (λ fault. (end : ℕ) (c : CommandOf text.now first end kind.Box)
            → IsFaultOf (state_of self.old) (command_of text.now first end kind.Box c) fault) }
    {
        let b = box_drawn(text, first, self.scale(), self.layer)?;
        self.builder.add_box(alloc, place, b)?;
        Ok(())
    }

    /// Draws a polygon.
    fn draw_polygon(
        &mut self,
        alloc: Global,
        text: &[u8],
        first: usize,
        place: TextPlace,
    ) -> Result<(), FigureFault>
        requires command { (end : ℕ) × CommandOf text.now first end kind.Polygon }
        requires reader { IsReader self.old }
        ensures read { OnOk result ((end : ℕ) (c : CommandOf text.now first end kind.Polygon)
            → IsRead self.old place (command_of text.now first end kind.Polygon c) self.new) }
        ensures fault { IfErr result (λ fault. (end : ℕ) (c : CommandOf text.now first end kind.Polygon)
            → IsFaultOf (state_of self.old) (command_of text.now first end kind.Polygon c) fault) }
    {
        let found = polygon_drawn(alloc, text, first, self.scale(), self.layer)?;
        self.builder
            .add_polygon(alloc, place, found.layer, &found.points)?;
        Ok(())
    }

    /// Draws a wire.
    fn draw_wire(
        &mut self,
        alloc: Global,
        text: &[u8],
        first: usize,
        place: TextPlace,
    ) -> Result<(), FigureFault>
        requires command { (end : ℕ) × CommandOf text.now first end kind.Wire }
        requires reader { IsReader self.old }
        ensures read { OnOk result ((end : ℕ) (c : CommandOf text.now first end kind.Wire)
            → IsRead self.old place (command_of text.now first end kind.Wire c) self.new) }
        ensures fault { IfErr result (λ fault. (end : ℕ) (c : CommandOf text.now first end kind.Wire)
            → IsFaultOf (state_of self.old) (command_of text.now first end kind.Wire c) fault) }
    {
        let boxes = wire_drawn(alloc, text, first, self.scale(), self.layer)?;
        self.builder.add_boxes(alloc, place, boxes)?;
        Ok(())
    }

    /// Puts a label, where the user extension is one.
    fn put_label(&mut self, text: &[u8], first: usize, end: usize) -> Result<(), FigureFault>
        requires command { CommandOf text.now first end kind.Extension }
        requires reader { IsReader self.old }
        ensures read { OnOk result ((c : CommandOf text.now first end kind.Extension) (place : Place)
            → IsRead self.old place (command_of text.now first end kind.Extension c) self.new) }
        ensures fault { IfErr result (λ fault. (c : CommandOf text.now first end kind.Extension)
            → IsFaultOf (state_of self.old) (command_of text.now first end kind.Extension c) fault) }
    {
        if let Some(label) = label_put(text, first, end, self.is_open())? {
            self.builder.add_label(label)?;
        }
        Ok(())
    }
}
