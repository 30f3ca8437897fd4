#![tactic(auto)]

ghost use Rattle.std.specs.Prelude.{◌≡◌, ◌<◌, ◌↔◌, IfSome, IsSome, Some};
ghost use Rattle.il_frames.specs.declared.frame.Frame.{Frame};
ghost use Rattle.il_frames.specs.Frames.{number_of_class, bits_of, framed, class_of, byte_of, IsFrame};
ghost use Rattle.il_frames.specs.Frames as frames;

/// The class of a frame: its three control bits, by the HP-IL Interface Specification
/// (HP 82166-90017).
#[derive(Clone, Copy, PartialEq, Eq, Debug)]
pub enum Class {
    /// Data.
    Dab,
    /// Data, with a request for service.
    Dsr,
    /// A data byte that ends a record; further data may follow.
    End,
    /// A data byte that ends a record, with a request for service.
    Esr,
    /// A command.
    Cmd,
    /// A ready message.
    Rdy,
    /// Identify.
    Idy,
    /// Identify, with a request for service.
    Isr,
}

/// One of the 2,048 frames of the HP-IL Interface Specification (HP 82166-90017): a class and a
/// byte.
#[derive(Clone, Copy, PartialEq, Eq, Debug)]
pub struct Frame {
    class: Class,
    byte: u8,
}

impl Class {
    /// The three control bits, as a number.
    fn number(self) -> u16
        ensures { result ≡ number_of_class self }
    {
        match self {
            Class::Dab => 0,
            Class::Dsr => 1,
            Class::End => 2,
            Class::Esr => 3,
            Class::Cmd => 4,
            Class::Rdy => 5,
            Class::Idy => 6,
            Class::Isr => 7,
        }
    }

    /// The class with these control bits.
    fn of_number(number: u16) -> Option<Class>
        ensures known { IsSome result ↔ (number < 8) }
        ensures found { IfSome result (λ class. number_of_class class ≡ number) }
    {
        match number {
            0 => Some(Class::Dab),
            1 => Some(Class::Dsr),
            2 => Some(Class::End),
            3 => Some(Class::Esr),
            4 => Some(Class::Cmd),
            5 => Some(Class::Rdy),
            6 => Some(Class::Idy),
            7 => Some(Class::Isr),
            _ => None,
        }
    }

    /// Whether the first control bit is 0.
    fn is_data(self) -> bool
        ensures { result ≡ frames.is_data_class self }
    {
        match self {
            Class::Dab | Class::Dsr | Class::End | Class::Esr => true,
            Class::Cmd | Class::Rdy | Class::Idy | Class::Isr => false,
        }
    }

    /// Whether the class has its service bit set.
    fn requests_service(self) -> bool
        ensures { result ≡ frames.requests_service self }
    {
        match self {
            Class::Dsr | Class::Esr | Class::Isr => true,
            Class::Dab | Class::End | Class::Cmd | Class::Rdy | Class::Idy => false,
        }
    }

    /// The class with its service bit set, where it has one.
    fn with_service(self) -> Class
        ensures { result ≡ frames.class_with_service self }
    {
        match self {
            Class::Dab | Class::Dsr => Class::Dsr,
            Class::End | Class::Esr => Class::Esr,
            Class::Cmd => Class::Cmd,
            Class::Rdy => Class::Rdy,
            Class::Idy | Class::Isr => Class::Isr,
        }
    }
}

impl Frame {
    /// The frame of that class with those eight data bits.
    pub fn new(class: Class, byte: u8) -> Frame
        ensures { result ≡ framed class byte }
    {
        Frame { class, byte }
    }

    /// The class: the three control bits.
    pub fn class(&self) -> Class
        ensures { result ≡ class_of self.now }
    {
        self.class
    }

    /// The eight data bits.
    pub fn byte(&self) -> u8
        ensures { result ≡ byte_of self.now }
    {
        self.byte
    }

    /// The number of the frame, from 0 to 2,047: 256 times the control bits, plus the byte.
    pub fn bits(&self) -> u16
        ensures value { result ≡ bits_of self.now }
        ensures bound { result < 2048 }
    {
        256 * self.class.number() + self.byte as u16
    }

    /// The frame of that number, and `None` where the number is 2,048 or more.
    pub fn of_bits(bits: u16) -> Option<Frame>
        ensures known { IsSome result ↔ (bits < 2048) }
        ensures found { IfSome result (λ frame. bits_of frame ≡ bits) }
        ensures every { (frame : Frame) → IsFrame frame → bits_of frame ≡ bits → result ≡ Some frame }
    {
        let class = Class::of_number(bits / 256)?;
        let byte = (bits % 256) as u8;
        Some(Frame { class, byte })
    }

    /// Whether the frame is a data or end frame, with or without a request for service.
    pub fn is_data(&self) -> bool
        ensures { result ≡ frames.is_data self.now }
    {
        self.class.is_data()
    }

    /// Whether the service bit is set. Commands and ready frames have none.
    pub fn has_service(&self) -> bool
        ensures { result ≡ frames.has_service self.now }
    {
        self.class.requests_service()
    }

    /// The frame with its service bit set, where it has one.
    pub fn with_service(&self) -> Frame
        ensures { result ≡ frames.with_service self.now }
    {
        Frame {
            class: self.class.with_service(),
            byte: self.byte,
        }
    }

    /// Whether the two frames are equal apart from the service bit.
    pub fn same_but_service(&self, other: Frame) -> bool
        ensures { result ≡ frames.same_but_service self.now other }
    {
        self.with_service() == other.with_service()
    }
}
