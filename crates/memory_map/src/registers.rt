ghost use Rattle.std.specs.Prelude.{◌≡◌};
ghost use Rattle.memory_map.specs.Registers.{every_register, register, with_register};

/// The number by which instructions name EAX.
pub const EAX: u8 = 0;

/// The number by which instructions name ECX.
pub const ECX: u8 = 1;

/// The number by which instructions name EDX.
pub const EDX: u8 = 2;

/// The number by which instructions name EBX.
pub const EBX: u8 = 3;

/// The number by which instructions name ESP.
pub const ESP: u8 = 4;

/// The number by which instructions name EBP.
pub const EBP: u8 = 5;

/// The number by which instructions name ESI.
pub const ESI: u8 = 6;

/// The number by which instructions name EDI.
pub const EDI: u8 = 7;

/// A value for each of the eight general-purpose registers: a word, or what is known of one.
#[derive(Clone, Copy, Debug, PartialEq, Eq)]
pub struct Regs<V> {
    pub eax: V,
    pub ecx: V,
    pub edx: V,
    pub ebx: V,
    pub esp: V,
    pub ebp: V,
    pub esi: V,
    pub edi: V,
}

impl<V: Copy> Regs<V> {
    /// The same value for each register.
    pub fn all(value: V) -> Regs<V>
        ensures { result ≡ every_register value }
    {
        Regs {
            eax: value,
            ecx: value,
            edx: value,
            ebx: value,
            esp: value,
            ebp: value,
            esi: value,
            edi: value,
        }
    }

    /// The value of the register of this number, 0 to 7, by which instructions name it; above 7, that of EDI.
    #[tactic(auto, unfolding(crate::specs::Registers::register))]
    pub fn get(&self, r: u8) -> V
        ensures { result ≡ register self.now r }
    {
        match r {
            0 => self.eax,
            1 => self.ecx,
            2 => self.edx,
            3 => self.ebx,
            4 => self.esp,
            5 => self.ebp,
            6 => self.esi,
            _ => self.edi,
        }
    }

    /// Gives the register of this number another value; above 7, changes nothing.
    #[tactic(auto, unfolding(crate::specs::Registers::with_register))]
    pub fn set(&mut self, r: u8, v: V)
        ensures { self.new ≡ with_register self.old r v }
    {
        match r {
            0 => self.eax = v,
            1 => self.ecx = v,
            2 => self.edx = v,
            3 => self.ebx = v,
            4 => self.esp = v,
            5 => self.ebp = v,
            6 => self.esi = v,
            7 => self.edi = v,
            _ => {}
        }
    }
}
