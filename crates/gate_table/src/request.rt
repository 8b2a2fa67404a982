// What a gate is asked for.

/// What an activity asks for by INT F8h: a function, which is in EAX, and the words of the four registers that gates read.
#[derive(Clone, Copy, Debug)]
pub struct Request {
    pub function: u32,
    pub ebx: u32,
    pub ecx: u32,
    pub edx: u32,
    pub esi: u32,
}
