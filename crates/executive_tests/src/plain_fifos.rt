// Lists of calls on the FIFOs, and on the plain form of the same: a vector of bytes for each FIFO, in which all bytes move up when some leave.
// All answers have to be the same, and all bytes that come out.
ghost use Rattle.std.specs.Prelude.{◌≤◌, length};

use rt_fifos::Fifos;
use std::alloc::Global;
use std::test::Fail;

const EBUSY: i32 = -16;

const ENODEV: i32 = -19;

const EINVAL: i32 = -22;

const ENOSPC: i32 = -28;

/// A FIFO: how many bytes it holds at most, its bytes, its handler's entry, and whether that is marked.
#[derive(Drop)]
struct Plain {
    size: u32,
    bytes: Vec<u8>,
    handler: Option<u32>,
    mark: bool,
}

#[derive(Drop)]
struct Plains {
    fifos: Vec<Option<Plain>>,
}

fn no_fifos(alloc: Global) -> Result<Plains, Fail> {
    let mut fifos = Vec::new(alloc);
    for _ in 0..64u32 {
        fifos.push(None)?;
    }
    Ok(Plains { fifos })
}

impl Plains {
    fn of(&mut self, fifo: u32) -> Option<&mut Plain> {
        match self.fifos.get_mut(fifo as usize) {
            Some(Some(plain)) => Some(plain),
            _ => None,
        }
    }

    fn create(&mut self, alloc: Global, fifo: u32, size: u32) -> i32 {
        match self.fifos.get_mut(fifo as usize) {
            None => EINVAL,
            Some(place) => {
                if size < 1 || size > 16_384 {
                    return EINVAL;
                }
                if place.is_some() {
                    return EBUSY;
                }
                *place = Some(Plain {
                    size,
                    bytes: Vec::new(alloc),
                    handler: None,
                    mark: false,
                });
                0
            }
        }
    }

    fn destroy(&mut self, fifo: u32) -> i32 {
        match self.fifos.get_mut(fifo as usize) {
            Some(place) => {
                if place.is_none() {
                    return ENODEV;
                }
                *place = None;
                0
            }
            None => ENODEV,
        }
    }

    fn put(&mut self, fifo: u32, bytes: &[u8]) -> Result<i32, Fail>
        requires { length bytes.now ≤ 256 }
    {
        match self.of(fifo) {
            Some(plain) => {
                if plain.bytes.len().saturating_add(bytes.len()) > plain.size as usize {
                    return Ok(ENOSPC);
                }
                plain.bytes.extend_from_slice(bytes)?;
                Ok(bytes.len() as i32)
            }
            None => Ok(ENODEV),
        }
    }

    fn get(&mut self, fifo: u32, into: &mut [u8]) -> i32 {
        match self.of(fifo) {
            Some(plain) => {
                let mut count = 0i32;
                for byte in into {
                    if plain.bytes.is_empty() {
                        break;
                    }
                    *byte = plain.bytes.remove(0);
                    count = count.wrapping_add(1);
                }
                count
            }
            None => ENODEV,
        }
    }

    fn flush(&mut self, fifo: u32) -> i32 {
        match self.of(fifo) {
            Some(plain) => {
                plain.bytes.clear();
                0
            }
            None => ENODEV,
        }
    }

    fn count(&mut self, fifo: u32) -> i32 {
        match self.of(fifo) {
            Some(plain) => plain.bytes.len().min(16_384) as i32,
            None => ENODEV,
        }
    }

    fn set_handler(&mut self, fifo: u32, entry: u32) -> i32 {
        match self.of(fifo) {
            Some(plain) => {
                plain.handler = if entry == 0 { None } else { Some(entry) };
                plain.mark = plain.mark && entry != 0;
                0
            }
            None => ENODEV,
        }
    }

    fn mark(&mut self, fifo: u32) {
        if let Some(plain) = self.of(fifo) {
            plain.mark = plain.mark || plain.handler.is_some();
        }
    }

    fn next_marked(&self) -> Option<u8> {
        let mut number = 0u8;
        for place in &self.fifos {
            if let Some(plain) = place {
                if plain.mark {
                    return Some(number);
                }
            }
            number = number.wrapping_add(1);
        }
        None
    }

    fn start(&mut self, fifo: u8) -> Option<u32> {
        match self.of(fifo as u32) {
            Some(plain) => {
                plain.mark = false;
                plain.handler
            }
            None => None,
        }
    }
}

/// Forms forms, and the number of bytes that were put so far.
#[derive(Drop)]
struct Forms {
    alloc: Global,
    fifos: Fifos,
    plain: Plains,
    sent: u32,
}

fn new_forms(alloc: Global) -> Result<Forms, Fail> {
    Ok(Forms {
        alloc,
        fifos: Fifos::new(alloc).ok().ok_or("no memory")?,
        plain: no_fifos(alloc)?,
        sent: 0,
    })
}

impl Forms {
    // Puts so many bytes, at most 256, each of them another than the one before.
    fn puts(&mut self, fifo: u32, count: u32) -> Result<bool, Fail> {
        let mut bytes = [0; 256];
        for byte in &mut bytes {
            self.sent = self.sent.wrapping_add(7);
            *byte = (self.sent % 251) as u8;
        }
        let these = &bytes[..(count % 257) as usize];
        Ok(self.fifos.put(fifo, these) == self.plain.put(fifo, these)?)
    }

    // Gets up to so many bytes, at most 256.
    fn gets(&mut self, fifo: u32, count: u32) -> bool {
        let mut into = [9; 256];
        let mut plain = [9; 256];
        let result = self.fifos.get(fifo, &mut into[..(count % 257) as usize]);
        result == self.plain.get(fifo, &mut plain[..(count % 257) as usize]) && into == plain
    }

    // Puts 256 bytes so often.
    fn fills(&mut self, fifo: u32, often: u32) -> Result<bool, Fail> {
        for _ in 0..often % 100 {
            if !self.puts(fifo, 256)? {
                return Ok(false);
            }
        }
        Ok(true)
    }

    // Gets 256 bytes so often.
    fn empties(&mut self, fifo: u32, often: u32) -> bool {
        for _ in 0..often % 100 {
            if !self.gets(fifo, 256) {
                return false;
            }
        }
        true
    }

    fn starts(&mut self) -> bool {
        match self.fifos.next_marked() {
            Some(fifo) => Some(self.fifos.start(fifo)) == self.plain.start(fifo),
            None => true,
        }
    }

    // Does one thing of a list, and says whether the answer was the same: m makes a FIFO of a size, d destroys it, p puts and g gets so many
    // bytes, w puts and e gets 256 bytes so often, f flushes, h sets a handler, k marks it, s starts the next one that is marked.
    fn does(&mut self, what: u8, fifo: u32, number: u32) -> Result<bool, Fail> {
        match what {
            b'm' => Ok(
                self.fifos.create(fifo, number) == self.plain.create(self.alloc, fifo, number),
            ),
            b'd' => Ok(self.fifos.destroy(fifo) == self.plain.destroy(fifo)),
            b'p' => self.puts(fifo, number),
            b'g' => Ok(self.gets(fifo, number)),
            b'w' => self.fills(fifo, number),
            b'e' => Ok(self.empties(fifo, number)),
            b'f' => Ok(self.fifos.flush(fifo) == self.plain.flush(fifo)),
            b'h' => Ok(
                self.fifos.set_handler(fifo, number) == self.plain.set_handler(fifo, number),
            ),
            b'k' => {
                self.fifos.mark(fifo);
                self.plain.mark(fifo);
                Ok(true)
            }
            _ => Ok(self.starts()),
        }
    }

    fn agrees(&mut self, fifo: u32) -> bool {
        self.fifos.count(fifo) == self.plain.count(fifo)
            && self.fifos.next_marked() == self.plain.next_marked()
    }

    // Does a whole list, whose things end with a space: a letter and the FIFO's number, and behind a point another number. Behind each the
    // count and the marked FIFO are the same.
    fn is_same(&mut self, list: &str) -> Result<bool, Fail> {
        let mut what = 0;
        let mut fifo: u32 = 0;
        let mut number: u32 = 0;
        let mut is_second = false;
        for byte in list.bytes() {
            match byte {
                b' ' => {
                    if !self.does(what, fifo, number)? || !self.agrees(fifo) {
                        return Ok(false);
                    }
                }
                b'.' => is_second = true,
                b'0'..=b'9' => {
                    let digit = (byte - b'0') as u32;
                    if is_second {
                        number = number % 10_000 * 10 + digit;
                    } else {
                        fifo = fifo % 100 * 10 + digit;
                    }
                }
                _ => {
                    what = byte;
                    fifo = 0;
                    number = 0;
                    is_second = false;
                }
            }
        }
        Ok(true)
    }
}

// The first ten are by hand, and the others were drawn at random.
static LISTS: [&str; 40] = [
    "p0.1 g0.1 d0 f0 h0.4096 k0 s ",
    "m0.1 m63.16384 m64.1 m1.0 m1.16385 m0.1 d0 d0 m0.2 ",
    "m5.3 p5.2 p5.2 p5.1 p5.0 p5.1 g5.4 g5.4 ",
    "m5.256 p5.256 p5.1 g5.256 p5.255 p5.1 p5.1 g5.0 g5.256 ",
    "m5.16384 w5.64 p5.1 g5.1 p5.1 p5.1 e5.65 p5.1 g5.2 ",
    "m5.16384 w5.50 e5.40 w5.60 e5.30 w5.30 p5.256 e5.70 ",
    "m5.16383 w5.64 p5.255 p5.1 e5.64 ",
    "m5.1000 p5.200 d5 m5.100 g5.50 p5.101 p5.100 f5 p5.100 g5.256 ",
    "m9.4 m8.4 h9.4096 h8.8192 k9 k8 s k8 h8.0 s s h8.4096 s ",
    "m9.4 h9.4096 k9 h9.8192 f9 s k9 d9 s m9.4 k9 s ",
    "m21.2 h21.0 f21 h21.0 p21.162 m21.16384 f21 s k21 p21.2 s p54.0 f21 p54.2 h21.8192 h64.4096 p54.24 g54.3 h64.0 k21 ",
    "m2.64 h2.0 g2.32 g2.64 p2.95 f2 p64.65 k29 g64.186 k2 k2 p2.1 g2.32 p2.64 m2.16384 p2.65 p2.65 k2 k2 g2.1 ",
    "m62.257 h62.4096 m62.0 d62 d62 k62 s s s g62.128 p12.256 p62.186 g62.256 m62.257 h64.0 k12 p62.256 g62.256 g64.1 g12.1 ",
    "m10.2 h10.0 k10 p10.2 d57 g10.1 g64.2 k10 p10.0 s h10.0 p10.2 g10.3 p57.0 g10.3 k64 k10 h10.8192 g10.1 p10.1 ",
    "m59.255 h59.0 p59.187 k59 g59.1 s p59.255 h34.0 g59.256 g59.256 m59.1 g59.1 s p59.127 m59.4 g59.1 k59 s f64 s ",
    "m42.64 h42.4096 g42.64 g42.71 m42.0 k42 g42.1 k16 g64.0 p42.222 k42 g64.85 g42.32 k42 k16 g42.32 p64.0 d42 p16.65 s ",
    "m60.7 h60.4096 p60.0 g60.7 p60.1 p60.8 d60 g60.8 p60.8 g60.7 f20 f60 k60 p60.0 g60.3 p64.3 s k20 s g60.91 ",
    "m61.255 h61.4096 p61.127 s k61 f61 h61.0 s p64.1 k27 p61.127 k61 f64 s p61.256 d61 m61.16385 m64.0 d61 g61.256 ",
    "m61.2 h61.0 d64 d64 p61.0 p64.1 g61.1 p61.3 k64 f64 g61.212 p61.1 p61.1 g61.2 g61.0 f61 p61.1 k61 h61.4096 k61 ",
    "m31.1000 h31.4096 d31 p31.256 p31.256 d31 m31.4 f31 p31.98 m13.16385 k31 g13.0 g13.1 f13 d31 p31.242 p31.256 p31.0 g31.0 p31.256 ",
    "m61.255 h61.0 p61.1 g61.255 f61 h61.8192 k61 k61 g61.127 g61.255 m56.16385 k64 g61.179 g61.0 k56 d61 d61 p61.255 h56.0 g61.1 ",
    "m45.256 h45.0 s p45.256 k64 s k45 p45.256 g2.1 p64.256 s g45.128 f45 p45.256 f2 g45.256 g45.256 d45 d45 p45.256 ",
    "m21.1 h21.0 g21.0 f21 m21.0 f21 p21.1 p21.222 p21.1 g21.0 h64.8192 p21.2 k21 d21 g21.1 g21.212 h21.4096 k21 s p21.1 ",
    "m7.255 h7.4096 f7 k7 g64.127 g7.1 g7.127 s g7.127 m7.0 p7.255 g7.255 p7.0 m64.255 p16.1 f7 g16.1 h7.0 g7.1 m7.1 ",
    "m50.256 h50.0 k50 f50 p50.0 k50 p50.256 m50.1 h50.8192 g50.0 k64 p50.256 p50.0 p64.1 g50.256 g33.128 p50.1 m50.16384 s p50.128 ",
    "m21.1000 h21.4096 k64 m40.1 h64.0 p21.256 d64 m21.0 p40.256 p21.256 d21 p21.256 f40 s g21.197 p64.1 s g21.87 p21.19 g21.1 ",
    "m52.3 h52.0 p52.3 d52 f52 k52 k52 m52.1 f52 s f52 p52.4 s p64.1 f52 p52.25 p52.4 g52.208 d52 g52.159 ",
    "m34.64 h34.4096 s k64 p34.55 k34 k34 f42 p34.56 p42.120 p34.65 g34.64 k34 m34.4 m34.16385 f34 g34.223 h64.8192 d34 d34 ",
    "m49.1000 h49.0 m49.1 k49 k49 p49.53 g49.256 k49 h19.4096 p49.256 s g49.256 k49 p64.256 f64 f49 g49.1 g49.256 m49.16385 k49 ",
    "m1.257 h1.0 m64.16385 g1.128 g1.1 k1 g1.128 k1 p1.256 h1.0 p1.256 m1.257 h1.0 g1.85 k64 p1.128 h18.8192 d18 g1.195 s ",
    "m35.3 h35.0 g35.0 h35.8192 p35.3 g35.1 d9 p64.3 g35.0 s g35.0 s k35 p35.144 g35.0 g35.0 p35.0 g64.1 g64.0 g64.256 ",
    "m57.257 h57.4096 g57.128 k57 h57.4096 h64.8192 p35.256 k57 p57.128 p57.1 g35.0 p57.256 p57.256 g57.0 g57.0 s f57 p57.256 g57.128 h57.0 ",
    "m62.255 h62.4096 m62.1 k62 s p62.127 m62.1 p62.1 f47 g62.255 g47.1 g62.1 p64.256 d62 p62.51 p62.133 s k62 p62.256 g64.1 ",
    "m38.64 h38.4096 g64.65 p38.0 m38.16385 h52.4096 k38 g38.32 p38.64 m38.1 p38.32 p38.65 p38.0 k38 k38 p38.1 k38 p52.0 m38.64 p38.229 ",
    "m15.64 h15.4096 g15.32 p59.1 g15.65 f15 p15.119 k15 g15.64 p64.1 f15 g59.64 k64 h15.8192 h15.0 g15.64 k15 p15.233 s k64 ",
    "m4.64 h4.0 p4.32 p64.64 p64.65 p4.0 g4.0 s d4 p64.0 d4 p4.162 g4.140 g4.32 s p64.65 p4.0 s h4.4096 f4 ",
    "m50.7 h50.0 s k50 g50.8 k50 p10.0 s k50 p50.7 k50 s d50 p64.7 k10 p50.0 k50 m64.4 g50.1 p50.7 ",
    "m60.64 h60.4096 m60.16384 g60.65 p60.65 s g60.32 d60 h60.0 k30 g60.65 p60.65 m60.64 p60.168 p60.0 k64 g60.188 p60.1 s f60 ",
    "m4.1000 h4.4096 k4 p9.256 p4.256 p4.256 g9.256 p4.256 s p4.256 g4.88 p4.0 p4.0 k64 p4.0 p4.256 g4.256 d9 g64.256 g64.27 ",
    "m49.1 h49.0 p49.0 d49 p49.112 g60.216 g49.0 g49.1 k64 g49.2 m64.1 p64.109 g49.0 g49.2 g49.161 p49.0 g49.1 k64 k49 d49 ",
];

#[test]
fn rings_answer_as_plain_vectors(rt: HostRuntime) -> Result<(), Fail> {
    for list in &LISTS {
        let mut forms = new_forms(rt.alloc())?;
        assert!(rt; forms.is_same(list)?, "{list}");
    }
    Ok(())
}
