//! What a page has before its data and behind them: its frame, its style, and the script that draws.
//! Made by scripts/make_page of the files of page/: change those, and run it again.

/// The page up to its data.
pub(crate) const PAGE_HEAD: &str = "<!DOCTYPE html>
<html lang='en'>
<head>
<meta charset='utf-8'>
<meta name='viewport' content='width=device-width'>
<title>kroft show</title>
<style>
:root { color-scheme: light dark; --back: #ffffff; --text: #16191d; --soft: #4a525b; --line: #c6ced6; --box: #f6f8fa;
  --head: #e9edf1; --mark: #fff0a8; --edge: #a86f00; --key: #0747a6; --read: #b9f0cd; --read-edge: #0a6b35;
  --bank: #8ab4e8; --arrival: #b79cf0; --stack: #f2b56b; --ready: #a9dcbd; --value: #4cb87a; --refused: #d9534f;
  --register: #6b8fc4; --obsolete: #9aa2ab; --queue: #d98fb3; --on-bar: #101418; --over: #9c2b00; --faint: #c2cad2; }
@media screen and (prefers-color-scheme: dark) {
  :root:not(.paper) { --back: #12161a; --text: #e8edf2; --soft: #a9b4bf; --line: #3a434c; --box: #191f25; --head: #232b33;
    --mark: #544400; --edge: #f0bd3c; --key: #8cc4ff; --read: #0f4a2a; --read-edge: #5fdc93;
    --bank: #3d6fae; --arrival: #7a5cc0; --stack: #a8691a; --ready: #2f6e4c; --value: #2fa866; --refused: #c0433f;
    --register: #4f76b0; --obsolete: #6d7680; --queue: #9c4f76; --on-bar: #ffffff; --over: #ffa46b; --faint: #4a545e; }
}
* { box-sizing: border-box; }
[hidden], .hidden { display: none !important; }
body { margin: 0; padding: 3px 8px 2px; background: var(--back); color: var(--text);
  font: 14px/18px Arial, 'Liberation Sans', Helvetica, sans-serif; }
h1 { font-size: 16px; margin: 0 6px; white-space: nowrap; font-variant-numeric: tabular-nums; }
h2 { font-size: 14px; line-height: 18px; margin: 0; font-weight: 700; color: var(--soft); }
p { margin: 0; }
ol { list-style: none; margin: 0; padding: 0; }
.controls { display: flex; gap: 5px; align-items: center; }
.controls input { flex: 1; min-width: 80px; accent-color: var(--key); }
button { font: inherit; min-width: 34px; min-height: 28px; padding: 2px 8px; color: var(--text); background: var(--head);
  border: 1px solid var(--line); border-radius: 4px; cursor: pointer; }
button[aria-pressed=true] { background: var(--mark); border-color: var(--edge); }
:focus-visible { outline: 3px solid var(--key); outline-offset: 1px; }
#told { font-size: 17px; line-height: 22px; min-height: 22px; }
#event, #recorded { font-family: ui-monospace, 'DejaVu Sans Mono', monospace; }
#recorded { color: var(--over); }
#line { display: block; width: 100%; cursor: pointer; border: solid var(--line); border-width: 1px 0; }

#machine { position: relative; display: grid; gap: 21px 24px; margin-top: 3px; align-items: start;
  grid-template-columns: minmax(290px, 426px) minmax(372px, 1fr) minmax(372px, 1fr);
  grid-template-areas: 'asks ready ready' 'registers frames frames' 'registers stack queue' 'banks banks banks'; }
#asks { grid-area: asks; } #ready { grid-area: ready; } #registers { grid-area: registers; } #frames { grid-area: frames; }
#stack { grid-area: stack; } #queue { grid-area: queue; } #banks { grid-area: banks; }
#machine > section { border: 1px solid var(--line); border-radius: 5px; padding: 0 4px 1px; background: var(--box); min-width: 0; }
#banks.banks, #machine > #banks { border: 0; padding: 0; background: none; }
#arrows { position: absolute; inset: 0; width: 100%; height: 100%; pointer-events: none; z-index: 1; overflow: visible; }
#arrows path { fill: none; stroke: var(--faint); stroke-width: 2; }
#arrows path.moved { stroke: var(--edge); stroke-width: 4; }
#arrows rect { fill: var(--mark); stroke: var(--edge); }
#arrows text { font: 14px Arial, 'Liberation Sans', sans-serif; fill: var(--text); }

.word, #request b, #lines-list .entry, #memory-list .entry { font-family: ui-monospace, 'DejaVu Sans Mono', monospace; }
.entry { padding: 0 2px; overflow-wrap: anywhere; min-height: 18px; border-radius: 2px; font-variant-numeric: tabular-nums; }
.changed { background: var(--mark); box-shadow: inset 3px 0 0 var(--edge), 0 0 0 1px var(--edge); padding-left: 5px; }
td.changed { padding: 0; box-shadow: inset 0 0 0 2px var(--edge); }
.read { background: var(--read); box-shadow: inset 0 0 0 2px var(--read-edge); }
.pending { font-style: italic; }
.dirty { font-weight: 700; text-decoration: underline 2px; color: var(--key); }
.at { color: var(--soft); }

#request { display: flex; flex-wrap: wrap; gap: 2px 4px; overflow: hidden; min-height: 20px; align-items: center; }
#request b { white-space: nowrap; }
#request span { border: 1px solid var(--line); border-radius: 3px; padding: 0 3px; background: var(--back); white-space: nowrap; }
#ready-list { display: flex; flex-wrap: wrap; gap: 2px 8px; min-height: 20px; }
.scrolls { overflow: auto; }
#frames .scrolls { max-height: 106px; } #registers-list { max-height: 226px; min-height: 217px; }
#stack-list, #queue-list { max-height: 74px; min-height: 74px; }
#queue-list { columns: 2; column-gap: 6px; }
li { break-inside: avoid; display: flex; gap: 4px; min-height: 18px; }
h3 { font-size: 14px; line-height: 18px; margin: 0; color: var(--soft); white-space: nowrap; }
table { border-collapse: collapse; width: 100%; table-layout: fixed; }
th { text-align: left; font-weight: 400; color: var(--soft); white-space: nowrap; padding: 0 2px; overflow: hidden; }
th.name { padding-left: 5px; }
td { border: 1px solid var(--line); padding: 0; height: 20px; background: var(--back); }
tbody th[scope=row] { padding-left: 4px; }
td.block { white-space: nowrap; overflow: hidden; }
td.word { text-align: center; }
.register { border-top: 1px solid var(--line); }
.register-head { display: flex; gap: 5px; min-height: 18px; }
.fields { display: grid; gap: 0 2px; align-items: start; }
.register.free .fields { display: none; }
#banks-list { display: grid; gap: 4px 10px; grid-template-columns: repeat(4, minmax(0, 1fr)); }
.bank { border: 1px solid var(--line); border-radius: 5px; padding: 0 4px 1px; background: var(--box); min-height: 40px; min-width: 0; }
.bank-head { display: flex; gap: 8px; }
.bank-lists { display: grid; grid-template-columns: minmax(0, 9fr) minmax(0, 11fr); gap: 6px;
  max-height: max(76px, calc(100vh - 414px - var(--line-of-time, 200px))); }
.many .bank-lists { max-height: none; }
.many { max-height: max(76px, calc(100vh - 436px - var(--line-of-time, 200px))); }
.many .bank.empty { display: none; }
.commands .at { display: none; }
#memory-box, #lines-box { margin-top: 10px; }
#memory-list { display: grid; grid-template-columns: repeat(8, 1fr); gap: 2px 8px; }
#memory-list .at { min-width: 3ch; text-align: right; }
@media (min-width: 1105px) and (min-height: 900px) {
  #frames .scrolls { max-height: 190px; } #registers-list { max-height: 330px; }
  .bank-lists { max-height: max(76px, calc(100vh - 520px - var(--line-of-time, 200px))); }
}
@media (max-width: 1104px) {
  #machine { gap: 10px; grid-template-columns: minmax(0, 1fr) minmax(0, 1fr);
    grid-template-areas: 'asks asks' 'ready ready' 'frames frames' 'registers registers' 'stack queue' 'banks banks'; }
  #arrows { display: none; }
  .controls { flex-wrap: wrap; }
  button { min-height: 36px; min-width: 42px; }
  #banks-list { grid-template-columns: repeat(2, minmax(0, 1fr)); max-height: none; }
  #frames .scrolls, #registers-list, .bank-lists { max-height: none; }
}
@media (max-width: 700px) {
  #banks-list { grid-template-columns: minmax(0, 1fr); }
  #memory-list { grid-template-columns: repeat(4, 1fr); }
}
@media print {
  .controls > :not(h1) { display: none; }
  #line { height: auto !important; }
  #frames .scrolls { zoom: 0.85; }
  .scrolls, #machine .scrolls { max-height: none; min-height: 0; overflow: visible; }
  #machine > section, .bank, .register { break-inside: avoid; }
  .changed, .read { print-color-adjust: exact; -webkit-print-color-adjust: exact; }
}
@media (prefers-reduced-motion: no-preference) { #arrows path.moved { animation: move 0.35s ease-out; } }
@keyframes move { from { stroke-dasharray: 0 400; } to { stroke-dasharray: 400 0; } }
</style>
</head>
<body>
<header>
<div class='controls' role='group' aria-label='steps'>
<button id='to-first' aria-label='first step'>|&lt;</button>
<button id='back' aria-label='one step back'>&lt;</button>
<button id='play' aria-label='play'>play</button>
<button id='next' aria-label='one step on'>&gt;</button>
<button id='to-last' aria-label='last step'>&gt;|</button>
<input id='slider' type='range' min='0' value='0' aria-label='step'>
<h1>step <span id='number'>0</span> of <span id='last'>0</span></h1>
<button id='wider' aria-label='wider columns in the line of time'>+</button>
<button id='narrower' aria-label='narrower columns in the line of time'>-</button>
<button id='show-memory' aria-pressed='false' aria-controls='memory-box'>memory</button>
<button id='show-lines' aria-pressed='false' aria-controls='lines-box'>reg lines</button>
<button id='show-values' aria-pressed='false'>values</button>
<button id='show-keys' aria-pressed='false' aria-controls='keys'>keys</button>
</div>
<p id='told' aria-live='polite'><b id='event'></b> <b id='recorded'></b> <span id='words'></span></p>
<p id='keys' hidden>left, right: a step; Home, End: first and last; space: play; page up, page down: ten steps; + and -:
wider and narrower columns; m: memory; r: the registers as a trace shows them; v: the values that waiting loads will get. A click in the line of time goes there.</p>
</header>
<canvas id='line' role='img' aria-label='line of time'></canvas>
<main id='machine'>
<svg id='arrows' aria-hidden='true'></svg>
<section id='asks' aria-labelledby='asks-name'><h2 id='asks-name'>Event</h2><div id='request'></div></section>
<section id='ready' aria-labelledby='ready-name'><h2 id='ready-name'>Ready values</h2><ol id='ready-list'></ol></section>
<section id='registers' aria-labelledby='registers-name'><h2 id='registers-name'>Registers</h2>
<div id='registers-list' class='scrolls'></div></section>
<section id='frames' aria-labelledby='frames-name'><h2 id='frames-name'>Frames</h2>
<div class='scrolls'><table id='frames-table'></table></div></section>
<section id='stack' aria-labelledby='stack-name'><h2 id='stack-name'>Input stack</h2><ol id='stack-list' class='scrolls'></ol></section>
<section id='queue' aria-labelledby='queue-name'><h2 id='queue-name'>Write queue</h2><ol id='queue-list' class='scrolls'></ol></section>
<section id='banks' aria-labelledby='banks-name'><h2 id='banks-name' class='hidden'>Banks</h2>
<div id='banks-list' class='scrolls'></div></section>
</main>
<section id='memory-box' aria-labelledby='memory-name' hidden><h2 id='memory-name'>Memory, as the banks have it</h2>
<ol id='memory-list' start='0'></ol></section>
<section id='lines-box' aria-labelledby='lines-name' hidden><h2 id='lines-name'>Registers, as a trace shows them</h2>
<ol id='lines-list' start='0'></ol></section>
<script>
";

/// The page behind its data.
pub(crate) const PAGE_END: &str = "];
</script>
<script>
'use strict';
window.onerror = (told) => { document.body.dataset.fault = String(told); };

// ---- the places of a picture: a letter, and numbers with points between them

const placeNumber = new Map(places.map((name, k) => [name, k]));
const lettersOf = places.map((name) => name[0]);
const numbersOf = places.map((name) => name.slice(1).split('.').map(Number));
const countOf = (letter) => numbersOf.reduce((most, of, k) => (lettersOf[k] === letter ? Math.max(most, of[0] + 1) : most), 0);
const range = (n) => Array.from({ length: n }, (_, k) => k);

// The machine's numbers.
const sizes = {
  blockWords,
  ways,
  frames: countOf('f'),
  sets: countOf('f') / ways,
  registers: countOf('r'),
  stack: countOf('s'),
  queue: countOf('q'),
  banks: countOf('m'),
  ready: countOf('v'),
  memory: countOf('b'),
};

// ---- addresses

// An address, cut: its block, the set in which the block may be, the word's number in the block, and its bank.
function cut(at) {
  const block = Math.floor(at / sizes.blockWords);
  return { at, block, set: block % sizes.sets, word: at % sizes.blockWords, bank: at % sizes.banks };
}
const addressIn = (block, word) => block * sizes.blockWords + word;
const addressAt = (bank, place) => place * sizes.banks + bank;

// ---- the program's texts, in parts

// The bytes of a word that a mask names, and for each other one __, or .. where it is still to come.
const masked = (mask, word, other = '__') => range(4).map((k) => (mask[k] === '1' ? word.slice(2 * k, 2 * k + 2) : other)).join('');

// A register's block, or null.
function blockOf(text) {
  const found = /^(?:valid|obsolete), block (\\d+)/.exec(text);
  return found ? Number(found[1]) : null;
}
function registerName(text) {
  const found = /^(valid|obsolete), block (\\d+)(?:, frame (\\d+))?, words came: (\\d+)$/.exec(text);
  if (!found) return text;
  const [, state, block, frame, came] = found;
  const who = state === 'valid' ? `block ${block} in f${frame}` : `obsolete: block ${block}`;
  return `${who}, ${came} of ${sizes.blockWords} came`;
}
function fieldName(text, at) {
  return text === '' ? '' : `${at} ${text}`;
}
// A load, with the bytes that it has; and what it will get, if that is wanted.
function loadName(text, isWhole) {
  const found = /^tag (\\d+)(?: is owed (\\w{8})(?:, holds (\\d{4}) (\\w{8}))?)?$/.exec(text);
  if (!found) return text;
  const [, tag, owed, mask, held] = found;
  if (!owed) return `t${tag}`;
  return `t${tag}: ${masked(mask ?? '0000', held ?? owed, '..')}${isWhole ? ` will be ${owed}` : ''}`;
}
function entryName(text, at) {
  const found = /^register (\\d+), word \\d+: (\\w{8})$/.exec(text);
  return found ? `word ${at}, r${found[1]}: ${found[2]}` : text;
}
function queuedName(text) {
  const found = /^word (\\d+), block \\d+: (\\d{4}) (\\w{8})$/.exec(text);
  return found ? `word ${found[1]}: ${masked(found[2], found[3])}` : text;
}
function commandName(text, bank) {
  const read = /^read place (\\d+): register (\\d+), word \\d+$/.exec(text);
  if (read) return `read word ${addressAt(bank, Number(read[1]))}, r${read[2]}`;
  const write = /^write place (\\d+): (\\d{4}) (\\w{8})$/.exec(text);
  return write ? `write word ${addressAt(bank, Number(write[1]))}: ${masked(write[2], write[3])}` : text;
}
function replyName(text) {
  return text.replace(/^tag (\\d+)/, 't$1');
}
// The word that a request is for, or null.
function askedWord(event) {
  const found = /^(?:load \\d+|store|prefetch) (\\d+)/.exec(event);
  return found ? Number(found[1]) : null;
}
// An event, without its address.
function requestName(event) {
  return event.replace(/^load (\\d+) \\d+$/, 'load t$1').replace(/^prefetch \\d+$/, 'prefetch')
    .replace(/^store \\d+ (\\d{4}) (\\w{8})$/, (_, mask, word) => `store ${masked(mask, word)}`)
    .replace(/^evict (\\d+)$/, 'evict block $1').replace(/^serve (\\d+)$/, 'serve bank $1')
    .replace(/^arrive (\\d+) (\\d+)$/, 'arrive from bank $1, answer $2').replace(/^process (\\d+)$/, 'process stack $1')
    .replace(/^take (\\d+)$/, 'take value $1');
}
// The bytes of a word in a frame that are there, by what its register says of it: all, or those of its code while it is to come.
function bytesThere(text) {
  const found = /^(?:missing|in stack)(?:, code (\\d{4}))?$/.exec(text);
  return found ? found[1] ?? '0000' : '1111';
}
// The frame that a register waits for, or null.
function frameOf(text) {
  const found = /^valid, block \\d+, frame (\\d+)/.exec(text);
  return found ? Number(found[1]) : null;
}
// A word of a frame: its digits, and which of its bytes memory doesn't have yet.
function cellParts(text) {
  const [word, mask] = text.split(', dirty ');
  return { word, mask: mask || '0000' };
}
// The register and the word of its block that an entry of the input stack, an answer or a read is for, as a pair of numbers.
function ownerOf(text) {
  const found = /register (\\d+), word (\\d+)/.exec(text);
  return found ? [Number(found[1]), Number(found[2])] : null;
}
</script>
<script>
'use strict';

// The run: which text stands at each place behind a step, forwards and backwards.
// A step is [event, answer, words, recorded, changes]: the recorded answer if it isn't the machine's, and '' if not; a change is
// [place, text].
class Run {
  constructor(all) {
    this.steps = all;
    this.last = all.length - 1;
    this.texts = places.map(() => '');
    this.now = -1;
    // What stood, before each step, at the places that it changed.
    this.stood = [];
    this.forward();
  }

  forward() {
    this.now += 1;
    const changes = this.steps[this.now][4];
    this.stood[this.now] = changes.map(([k]) => [k, this.texts[k]]);
    for (const [k, text] of changes) this.texts[k] = text;
  }

  backward() {
    for (const [k, text] of this.stood[this.now]) this.texts[k] = text;
    this.now -= 1;
  }

  go(to) {
    const step = Math.max(0, Math.min(this.last, to));
    while (this.now < step) this.forward();
    while (this.now > step) this.backward();
  }

  text(name) {
    const k = placeNumber.get(name);
    return k === undefined ? '' : this.texts[k];
  }

  // The text before the step at hand.
  before(name) {
    const k = placeNumber.get(name);
    const change = this.now > 0 && this.stood[this.now].find(([place]) => place === k);
    return change ? change[1] : this.text(name);
  }

  // The places that the step at hand changed, which the first picture hasn't.
  changed() {
    return this.now > 0 ? this.steps[this.now][4].map(([k]) => k) : [];
  }

  // The address of the word that an entry is for.
  addressFor(text) {
    const [slot, word] = ownerOf(text) || [0, 0];
    return addressIn(blockOf(this.text(`r${slot}`)) ?? blockOf(this.before(`r${slot}`)) ?? 0, word);
  }
}

// ---- what the line of time draws

// The most loads that are drawn below one another.
const MOST_ROWS = 8;

// The lives of all loads: asked, accepted, value; with what each waited for at each step in between.
class Loads {
  constructor() {
    this.all = [];
    // loads that were refused and may be asked again, by tag and address
    this.asked = new Map();
    // loads that were accepted, by tag
    this.owed = new Map();
    this.causes = new Set();
  }

  begin(step, tag, at) {
    const load = { tag, at, asked: step, accepted: null, end: step, taken: false, overtakes: [], parts: [] };
    this.all.push(load);
    return load;
  }

  ask(step, tag, at, answer) {
    const key = `${tag} ${at}`;
    const load = this.asked.get(key) || this.begin(step, tag, at);
    this.asked.delete(key);
    const last = load.parts[load.parts.length - 1];
    if (last) last.to = step - 1;
    if (answer === 'accepted') {
      // (whoever asked under this tag before has given up)
      for (const [other, it] of this.asked) if (it.tag === tag) this.asked.delete(other);
      load.accepted = step;
      this.owed.set(tag, load);
    } else {
      load.parts.push({ from: step, to: step, cause: answer });
      this.causes.add(answer);
      load.end = step;
      this.asked.set(key, load);
    }
  }

  wait(step, tag, cause) {
    const load = this.owed.get(tag);
    if (!load) return;
    const last = load.parts[load.parts.length - 1];
    if (last && last.cause === cause && last.to === step - 1) last.to = step;
    else load.parts.push({ from: step, to: step, cause });
    this.causes.add(cause);
    load.end = step;
    if (cause === 'ready' && load.overtakes.length === 0 && (!last || last.cause !== 'ready')) this.overtake(load);
  }

  // The loads that were accepted earlier and still wait for a word.
  overtake(load) {
    const early = [...this.owed.values()].filter((it) => it.accepted < load.accepted);
    load.overtakes = early.filter((it) => it.parts[it.parts.length - 1].cause !== 'ready').map((it) => it.tag);
  }

  take(step, tag) {
    const load = this.owed.get(tag);
    if (!load) return;
    this.owed.delete(tag);
    load.taken = true;
    load.end = step;
  }
}

// All that the line of time draws, found in one walk over the run.
class Story {
  constructor(run) {
    const steps = run.last + 1;
    this.loads = new Loads();
    this.blocks = range(sizes.registers).map(() => new Array(steps).fill(''));
    this.banks = range(sizes.banks).map(() => new Uint16Array(steps));
    this.stack = new Uint16Array(steps);
    this.queue = new Uint16Array(steps);
    // how many entries stand in each of them, and where each word that is on its way is
    this.counts = { s: 0, q: 0, banks: range(sizes.banks).map(() => 0) };
    this.whereabouts = new Map();
    this.waiting = new Map();
    run.go(0);
    this.note(run, 0);
    while (run.now < run.last) {
      run.forward();
      this.note(run, run.now);
    }
    this.giveRows();
    run.go(0);
  }

  note(run, step) {
    const touched = new Set();
    run.steps[step][4].forEach(([k, text], n) => this.noteChange(k, run.stood[step][n][1], text, touched));
    for (const bank of touched) this.noteBank(run, bank);
    for (const slot of range(sizes.registers)) this.blocks[slot][step] = run.text(`r${slot}`);
    this.stack[step] = this.counts.s;
    this.queue[step] = this.counts.q;
    this.counts.banks.forEach((count, bank) => { this.banks[bank][step] = count; });
    this.noteLoads(run, step);
  }

  noteChange(k, before, after, touched) {
    const letter = lettersOf[k];
    const more = (after !== '' ? 1 : 0) - (before !== '' ? 1 : 0);
    if (letter === 's' || letter === 'q') this.counts[letter] += more;
    if (letter === 'm' || letter === 'a') {
      this.counts.banks[numbersOf[k][0]] += more;
      touched.add(numbersOf[k][0]);
    }
    if (letter === 'l') this.noteWaiting(k, before, after);
  }

  // The tag of a waiting load, and its place.
  noteWaiting(k, before, after) {
    const tagOf = (text) => Number(/^tag (\\d+)/.exec(text)[1]);
    if (before !== '' && this.waiting.get(tagOf(before)) === k) this.waiting.delete(tagOf(before));
    if (after !== '') this.waiting.set(tagOf(after), k);
  }

  // Which words a bank is asked for, and which it has answered.
  noteBank(run, bank) {
    for (const [key, it] of this.whereabouts) if (it.bank === bank) this.whereabouts.delete(key);
    for (const [letter, cause] of [['m', 'command'], ['a', 'answer']]) {
      for (let place = 0; run.text(`${letter}${bank}.${place}`) !== ''; place += 1) {
        const owner = ownerOf(run.text(`${letter}${bank}.${place}`));
        if (owner) this.whereabouts.set(owner.join('.'), { bank, cause });
      }
    }
  }

  noteLoads(run, step) {
    const [event, answer] = run.steps[step];
    const asked = /^load (\\d+) (\\d+)$/.exec(event);
    const value = /^value (\\d+) /.exec(answer);
    if (asked) this.loads.ask(step, Number(asked[1]), Number(asked[2]), answer);
    if (value) this.loads.take(step, Number(value[1]));
    for (const [tag] of this.loads.owed) this.loads.wait(step, tag, this.causeOf(run, tag));
  }

  causeOf(run, tag) {
    if (!this.waiting.has(tag)) return 'ready';
    const [slot, word] = numbersOf[this.waiting.get(tag)];
    if (run.text(`w${slot}.${word}`).startsWith('in stack')) return 'stack';
    const found = this.whereabouts.get(`${slot}.${word}`);
    return found ? found.cause : 'command';
  }

  // A row for each load: its own, or one that is free again if there are more loads than rows.
  giveRows() {
    const most = Math.max(3, Math.min(MOST_ROWS, this.loads.all.length));
    const before = [];
    this.loads.all.forEach((load, n) => {
      let row = n < most ? n : before.findIndex(({ end }) => end < load.asked - 1);
      if (row < 0) row = before.length;
      before[row] = load;
      load.row = row;
    });
    this.rows = Math.max(most, before.length);
  }
}
</script>
<script>
'use strict';

// The line of time: a column an event; a row for each load, and rows for registers, banks, stack and queue.
// Only the columns in sight are drawn.
const LABELS = 92;
const LEGEND = 17;
// The widest that a column gets.
const WIDEST = 240;
// Behind the last column, for names.
const MARGIN = 130;
const FONT = '14px Arial, \"Liberation Sans\", sans-serif';

const CAUSES = [
  ['command', 'its bank', '--bank'],
  ['answer', 'arrival', '--arrival'],
  ['stack', 'processing', '--stack'],
  ['ready', 'being taken', '--ready'],
  ['refused 3', 'its tag', '--refused', '-'],
  ['refused 4', 'a place for its reply', '--refused', '-|'],
  ['refused 5', 'a place at the word', '--refused', '\\\\'],
  ['refused 7', 'a register', '--refused', '/'],
  ['refused 8', 'a way', '--refused', '/\\\\'],
  ['refused 9', 'the write queue', '--refused', '|'],
  ['refused 10', 'room at a bank', '--refused', '|/'],
];

class Line {
  constructor(canvas, run, story) {
    this.canvas = canvas;
    this.pen = canvas.getContext('2d');
    this.run = run;
    this.story = story;
    this.first = 0;
    this.column = 0;
    this.resize();
  }

  // The heights of the groups of rows. Many rows share the height of few.
  layOut() {
    const { loads, rows } = this.story;
    this.loadHeight = rows > 6 ? 14 : 16;
    this.registerHeight = Math.min(7, 40 / sizes.registers);
    this.bankHeight = Math.min(6, 36 / sizes.banks);
    const groups = [
      ['loads', loads.all.length === 0 ? 0 : Math.min(rows, MOST_ROWS) * this.loadHeight],
      ['registers', sizes.registers * this.registerHeight],
      ['banks', sizes.banks * this.bankHeight],
      ['stack', 14],
      ['queue', 14],
    ];
    this.top = {};
    this.legend = this.layOutLegend();
    let y = LEGEND * (1 + this.legend.at(-1).row);
    for (const [name, height] of groups) {
      this.top[name] = y;
      y += Math.max(height, name === 'loads' && height === 0 ? 0 : 14) + 2;
    }
    return y;
  }

  // What the legend says, in as many rows as it needs: each cause that there is, and what a value looks like.
  layOutLegend() {
    this.pen.font = FONT;
    const named = [...CAUSES.filter(([cause]) => this.story.loads.causes.has(cause)), ['', 'has its value', '--value']];
    let x = LABELS;
    let row = 0;
    return named.map(([, name, colour, hatching]) => {
      const width = this.pen.measureText(name).width + 34;
      if (x > LABELS && x + width > this.width) [x, row] = [LABELS, row + 1];
      x += width;
      return { name, colour, hatching, row, x: x - width, end: x };
    });
  }

  resize() {
    const width = this.canvas.clientWidth;
    this.width = width;
    const height = this.layOut();
    const scale = window.devicePixelRatio || 1;
    this.height = height;
    this.canvas.style.height = `${height}px`;
    document.documentElement.style.setProperty('--line-of-time', `${height}px`);
    this.canvas.width = Math.round(width * scale);
    this.canvas.height = Math.round(height * scale);
    this.pen.setTransform(scale, 0, 0, scale, 0, 0);
    const style = getComputedStyle(document.documentElement);
    const colours = new Map();
    this.colour = (name) => {
      if (!colours.has(name)) colours.set(name, style.getPropertyValue(name).trim());
      return colours.get(name);
    };
    if (this.column === 0) this.column = Math.max(9, Math.min(64, (width - LABELS - MARGIN) / (this.run.last + 1)));
    this.draw();
  }

  zoom(by) {
    this.column = Math.max(2, Math.min(WIDEST, this.column * by));
    this.draw();
  }

  x(step) { return LABELS + (step - this.first) * this.column; }

  columns() { return (this.width - LABELS) / this.column; }

  // The first column in sight, if the last one is.
  most() { return Math.max(0, this.run.last + 1 + MARGIN / this.column - this.columns()); }

  // The step of a point of the canvas.
  stepAt(x) { return Math.max(0, Math.min(this.run.last, Math.floor(this.first + (x - LABELS) / this.column))); }

  // The cursor stays in sight, with room on both sides where the run goes on.
  follow() {
    const room = Math.min(8, Math.floor(this.columns() / 3));
    const { now } = this.run;
    if (now - room < this.first) this.first = now - room;
    if (now + 1 + room > this.first + this.columns()) this.first = now + 1 + room - this.columns();
    this.first = Math.max(0, Math.min(this.most(), this.first));
  }

  // Moves what is in sight, without the cursor.
  pan(columns) {
    this.first = Math.max(0, Math.min(this.most(), this.first + columns));
    this.paint();
  }

  draw() {
    this.follow();
    this.paint();
  }

  paint() {
    const { pen } = this;
    pen.clearRect(0, 0, this.width, this.height);
    pen.font = FONT;
    pen.textBaseline = 'middle';
    this.paintNames();
    this.chooseRows();
    pen.save();
    pen.beginPath();
    pen.rect(LABELS, 0, this.width - LABELS, this.height);
    pen.clip();
    this.paintCursor(true);
    this.paintLoads();
    this.paintRegisters();
    this.paintLevels();
    this.paintCursor(false);
    this.paintLoadNames();
    pen.restore();
    this.paintLegend();
    this.canvas.setAttribute('aria-label', this.spoken());
  }

  text(words, x, y, colour = '--text') {
    this.pen.fillStyle = this.colour(colour);
    this.pen.fillText(words, x, y);
  }

  bar(from, to, y, height, colour) {
    const x = Math.round(this.x(from));
    this.pen.fillStyle = this.colour(colour);
    this.pen.fillRect(x, y, Math.max(1, Math.round(this.x(to + 1)) - x), height);
  }

  inSight(from, to) { return to >= this.first - 1 && from <= this.first + this.columns(); }

  paintNames() {
    const { top } = this;
    const names = [['loads', 'loads'], ['registers', 'registers'], ['banks', 'banks'], ['stack', 'stack'], ['queue', 'queue']];
    for (const [group, name] of names) {
      if (group !== 'loads' || this.story.loads.all.length > 0) this.text(name, 6, top[group] + 8, '--soft');
    }
  }

  paintCursor(behind) {
    const { pen } = this;
    const x = this.x(this.run.now);
    if (behind) {
      pen.fillStyle = this.colour('--mark');
      pen.fillRect(x, this.top.loads - 2, this.column, this.height);
    } else {
      pen.fillStyle = this.colour('--edge');
      pen.fillRect(Math.round(x + this.column / 2) - 1, this.top.loads - 2, 2, this.height);
    }
  }

  // The loads in sight, with the rows in which they are drawn: if there are too many, those nearest to the cursor.
  chooseRows() {
    const { now } = this.run;
    const away = (load) => Math.max(0, load.asked - now, now - load.end);
    const nearest = new Map();
    // (a name may stand behind its bar)
    this.inRows = this.story.loads.all.filter((load) => this.inSight(load.asked, load.end + 12));
    for (const load of this.inRows) nearest.set(load.row, Math.min(away(load), nearest.get(load.row) ?? Infinity));
    const chosen = [...nearest].sort((a, b) => a[1] - b[1] || a[0] - b[0]).slice(0, MOST_ROWS).map(([row]) => row);
    const sorted = this.story.rows > MOST_ROWS ? chosen.sort((a, b) => a - b) : range(MOST_ROWS);
    this.rowNumber = new Map(sorted.map((row, n) => [row, n]));
    this.inRows = this.inRows.filter((load) => this.rowNumber.has(load.row));
    this.folded = nearest.size > MOST_ROWS ? nearest.size - MOST_ROWS : 0;
  }

  paintLoads() { for (const load of this.inRows) this.paintLoad(load); }

  paintLoadNames() {
    // what stands in each row: bars, and then names
    this.filled = new Map(this.inRows.map((load) => [load.row, []]));
    for (const load of this.inRows) this.fill(load, this.x(load.asked), this.x(load.end + 1));
    for (const load of this.inRows) this.paintName(load);
  }

  fill(load, from, to) { this.filled.get(load.row).push([from, to]); }

  // Whether nothing stands there in the load's row.
  isFree(load, from, to) {
    return from >= LABELS && to <= this.width && this.filled.get(load.row).every(([a, z]) => to <= a || z <= from);
  }

  rowOf(load) { return this.top.loads + this.rowNumber.get(load.row) * this.loadHeight; }

  paintLoad(load) {
    const y = this.rowOf(load);
    const height = this.loadHeight - 2;
    for (const { from, to, cause } of load.parts) {
      const row = CAUSES.find(([name]) => name === cause);
      this.bar(from, to, y, height, row ? row[2] : '--refused');
      if (row && row[3]) this.hatch(row[3], Math.max(this.x(from), LABELS), Math.min(this.x(to + 1), this.width), y, height);
    }
    if (load.taken) this.bar(load.end, load.end, y, height, '--value');
  }

  // Lines of one or two directions, so that a refusal is told from a wait, and from one of another cause, without colours.
  hatch(directions, left, right, y, height) {
    const { pen } = this;
    pen.save();
    pen.beginPath();
    pen.rect(left, y, Math.max(0, right - left), height);
    pen.clip();
    pen.strokeStyle = this.colour('--back');
    pen.beginPath();
    for (const direction of directions) {
      const lean = { '/': height, '\\\\': -height }[direction] ?? 0;
      if (direction === '-') pen.rect(left - 1, y + height / 3, right - left + 2, height / 3);
      else for (let x = left - height; x < right + height; x += 6) this.stroke(x, y + height, x + lean, y);
    }
    pen.stroke();
    pen.restore();
  }

  stroke(x0, y0, x1, y1) {
    this.pen.moveTo(x0, y0);
    this.pen.lineTo(x1, y1);
  }

  // The load's name, and whom it overtook: in its bar, or beside one that is too short.
  paintName(load) {
    const name = `t${load.tag}: word ${load.at}`;
    const over = load.overtakes.length > 0 ? `overtakes ${load.overtakes.map((tag) => `t${tag}`).join(', ')}` : '';
    const from = Math.max(this.x(load.asked), LABELS) + 3;
    const end = this.x(load.end + 1);
    const y = this.rowOf(load) + this.loadHeight / 2;
    const width = (words) => this.pen.measureText(words).width + 8;
    if (load.accepted !== load.asked && from + width(name) < end) {
      this.pen.fillStyle = this.colour('--refused');
      this.pen.fillRect(from - 3, this.rowOf(load), width(name), this.loadHeight - 2);
    }
    const put = (x, words, colour) => {
      this.text(words, x, y, colour);
      this.fill(load, x, x + width(words));
    };
    if (from + width(name) + width(over) < end) {
      this.text(name, from, y, '--on-bar');
      this.text(over, end - width(over) + 3, y, '--on-bar');
    } else if (from + width(name) < end) {
      this.text(name, from, y, '--on-bar');
      if (over && this.isFree(load, end + 4, end + width(over))) put(end + 4, over, '--over');
    } else {
      const place = (needed) => [end + 4, this.x(load.asked) - needed].find((it) => this.isFree(load, it, it + needed - 4));
      const whole = place(width(name) + (over ? width(over) : 0));
      const x = whole ?? place(width(name));
      if (x === undefined) return;
      put(x, name);
      if (over && whole !== undefined) put(x + width(name), over, '--over');
    }
  }

  // The steps in sight.
  seen() {
    const from = Math.max(0, Math.floor(this.first));
    const to = Math.min(this.run.last, Math.ceil(this.first + this.columns()));
    return { from, to };
  }

  paintRegisters() {
    const { from, to } = this.seen();
    this.story.blocks.forEach((texts, slot) => {
      const y = this.top.registers + slot * this.registerHeight;
      this.bar(from, to, y + this.registerHeight - 2, 1, '--line');
      for (let step = from; step <= to; step += 1) {
        if (texts[step] === '' || texts[step] === 'free') continue;
        this.bar(step, step, y, this.registerHeight - 2, texts[step].startsWith('obsolete') ? '--obsolete' : '--register');
      }
    });
  }

  // How much stands in the banks, the stack and the queue: the fuller, the higher.
  paintLevels() {
    const { from, to } = this.seen();
    this.story.banks.forEach((counts, bank) => {
      const most = Math.min(8, sizes.registers * sizes.blockWords);
      this.level(counts, most, this.top.banks + bank * this.bankHeight, this.bankHeight - 1, '--bank', from, to);
    });
    this.level(this.story.stack, sizes.stack, this.top.stack, 12, '--stack', from, to);
    this.level(this.story.queue, sizes.queue, this.top.queue, 12, '--queue', from, to);
  }

  level(counts, most, y, height, colour, from, to) {
    this.bar(from, to, y + height - 1, 1, '--line');
    for (let step = from; step <= to; step += 1) {
      const high = Math.max(2, Math.min(1, counts[step] / most) * (height - 1));
      if (counts[step] > 0) this.bar(step, step, y + height - high, high, colour);
    }
  }

  paintLegend() {
    this.text('waits for', 6, 9, '--soft');
    for (const { name, colour, hatching, row, x } of this.legend) {
      this.pen.fillStyle = this.colour(colour);
      this.pen.fillRect(x, 4 + row * LEGEND, 14, 11);
      if (hatching) this.hatch(hatching, x, x + 14, 4 + row * LEGEND, 11);
      this.text(name, x + 18, 9 + row * LEGEND, '--soft');
    }
    const { end, row } = this.legend.at(-1);
    const words = `${this.folded} more rows of loads are folded`;
    if (this.folded > 0 && end + this.pen.measureText(words).width < this.width) this.text(words, end, 9 + row * LEGEND, '--soft');
  }

  // What the line shows at the cursor, in words.
  spoken() {
    const { now, last } = this.run;
    const waiting = this.story.loads.all.filter((load) => load.asked <= now && now <= load.end && !(load.taken && load.end === now));
    const told = waiting.map((load) => {
      const part = load.parts.find((it) => it.from <= now && now <= it.to);
      const row = part && CAUSES.find(([cause]) => cause === part.cause);
      return `the load with tag ${load.tag} of word ${load.at}, asked in step ${load.asked}, waits for ${row ? row[1] : 'its end'}`;
    });
    return `line of time, step ${now} of ${last}: ${told.length ? told.join('; ') : 'no load waits'}`;
  }
}
</script>
<script>
'use strict';

const find = (id) => document.getElementById(id);

function element(kind, className, ...children) {
  const made = document.createElement(kind);
  if (className) made.className = className;
  made.append(...children);
  return made;
}

// The picture of the machine: an entry for each place, which is drawn anew when its text changes.
class Picture {
  constructor(run) {
    this.run = run;
    this.spots = new Map();
    this.drawn = new Map();
    this.marked = [];
    this.used = new Set();
    // whether it shows what waiting loads will get, and the registers that frames wait for
    this.isWhole = false;
    this.waitsFor = new Map();
    for (const [, , , , changes] of run.steps) for (const [k, text] of changes) if (text !== '') this.used.add(places[k]);
    this.makeFrames();
    this.makeRegisters();
    for (const [letter, id] of [['s', 'stack'], ['q', 'queue'], ['v', 'ready']]) this.makeList(letter, find(`${id}-list`));
    this.makeBanks();
    this.makeMemory();
    this.makeLines();
  }

  spot(name, kind = 'div', className = 'entry') {
    const made = element(kind, className);
    made.dataset.place = name;
    this.spots.set(name, made);
    return made;
  }

  makeFrames() {
    const head = element('tr');
    head.append(element('th', 'set'));
    for (const way of range(sizes.ways)) {
      head.append(element('th', 'name'), element('th', 'title', `way ${way}`));
      head.append(...range(sizes.blockWords).map((i) => element('th', '', `+${i}`)));
    }
    for (const cell of head.children) cell.scope = 'col';
    this.giveWidths(head);
    const rows = range(sizes.sets).filter((set) => sizes.sets <= 4 || this.isSetUsed(set));
    find('frames-table').append(element('thead', '', head), element('tbody', '', ...rows.map((set) => this.frameRow(set))));
  }

  // A column is as wide as the longest text in it, and a table that is wider than its box is scrolled.
  giveWidths(head) {
    const digits = (number) => 9 * String(number).length;
    const widths = { set: 32 + digits(sizes.sets - 1), name: 17 + digits(sizes.frames - 1), title: this.longestBlock() };
    for (const [kind, width] of Object.entries(widths)) {
      for (const cell of head.querySelectorAll(`.${kind}`)) cell.style.width = `${width}px`;
    }
    find('frames-table').style.minWidth = `${widths.set + sizes.ways * (widths.name + widths.title + 69 * sizes.blockWords)}px`;
  }

  // How wide the longest name of a block is in a frame.
  longestBlock() {
    const pen = document.createElement('canvas').getContext('2d');
    pen.font = `italic ${getComputedStyle(document.body).font}`;
    const names = this.run.steps.flatMap(([, , , , changes]) => changes.filter(([k]) => lettersOf[k] === 'f').map(([, text]) => text));
    const longest = names.reduce((a, b) => (b.length > a.length ? b : a), '');
    return Math.max(64, Math.ceil(pen.measureText(longest.replace(', pending', ' ..')).width) + 6);
  }

  isSetUsed(set) { return range(sizes.ways).some((way) => this.used.has(`f${set * sizes.ways + way}`)); }

  frameRow(set) {
    const row = element('tr', '', element('th', '', `set ${set}`));
    row.firstChild.scope = 'row';
    for (const way of range(sizes.ways)) {
      const frame = set * sizes.ways + way;
      row.append(element('th', '', `f${frame}`), this.spot(`f${frame}`, 'td', 'block'));
      row.append(...range(sizes.blockWords).map((i) => this.spot(`c${frame}.${i}`, 'td', 'word')));
    }
    return row;
  }

  makeRegisters() {
    for (const slot of range(sizes.registers)) {
      const fields = element('div', 'fields', ...range(sizes.blockWords).map((i) => this.field(slot, i)));
      fields.style.gridTemplateColumns = `repeat(${Math.min(4, sizes.blockWords)}, auto)`;
      const head = element('div', 'register-head', element('span', 'at', `r${slot}`), this.spot(`r${slot}`));
      const made = element('div', 'register', head, fields);
      made.id = `register-${slot}`;
      find('registers-list').append(made);
    }
  }

  field(slot, i) {
    const loads = [];
    for (let at = 0; placeNumber.has(`l${slot}.${i}.${at}`); at += 1) loads.push(this.spot(`l${slot}.${i}.${at}`));
    return element('div', 'field', this.spot(`w${slot}.${i}`), ...loads);
  }

  item(name, at) {
    const made = element('li', '', element('span', 'at', String(at)), this.spot(name));
    made.hidden = true;
    return made;
  }

  makeList(letter, list) {
    for (let at = 0; placeNumber.has(`${letter}${at}`); at += 1) {
      if (this.used.has(`${letter}${at}`)) list.append(this.item(`${letter}${at}`, at));
    }
  }

  makeBanks() {
    find('banks-list').classList.toggle('many', sizes.banks > 4);
    for (const bank of range(sizes.banks)) {
      const head = element('div', 'bank-head', element('h3', '', `Bank ${bank}`), element('div', 'stored'));
      const lists = element('div', 'bank-lists scrolls', ...['m', 'a'].map((letter) => element('ol', letter === 'm' ? 'commands' : 'answers')));
      lists.children[0].setAttribute('aria-label', `commands of bank ${bank}`);
      lists.children[1].setAttribute('aria-label', `answers of bank ${bank}`);
      ['m', 'a'].forEach((letter, n) => this.makeList(`${letter}${bank}.`, lists.children[n]));
      const made = element('div', 'bank', head, lists);
      made.id = `bank-${bank}`;
      find('banks-list').append(made);
    }
  }

  makeMemory() {
    for (const at of range(sizes.memory)) {
      const made = this.item(`b${at}`, at);
      made.hidden = false;
      find('memory-list').append(made);
    }
  }

  makeLines() {
    for (const slot of range(sizes.registers)) {
      const made = element('li', '', element('span', 'at', `r${slot}`), this.spot(`g${slot}`));
      find('lines-list').append(made);
    }
  }

  // ---- a step

  draw() {
    const changed = new Set(this.run.changed().map((k) => places[k]));
    for (const it of this.marked) it.classList.remove('changed', 'read');
    this.marked = [];
    this.waitsFor = new Map(range(sizes.registers).map((slot) => [frameOf(this.run.text(`r${slot}`)), slot]));
    for (const [name, spot] of this.spots) this.drawSpot(name, spot, changed.has(name));
    for (const slot of range(sizes.registers)) this.drawRegister(slot);
    this.drawRequest();
    this.drawStored(changed);
    for (const bank of range(sizes.banks)) this.drawBank(bank);
    this.markCame();
    this.markRead();
    this.showMarked();
  }

  drawSpot(name, spot, isChanged) {
    const text = this.run.text(name);
    const shown = text === '' ? (isChanged ? '-' : '') : this.nameOf(name, text);
    if (this.drawn.get(name) !== shown) {
      this.drawn.set(name, shown);
      if (name[0] === 'c' && text !== '') this.drawWord(spot, shown);
      else spot.textContent = shown;
      spot.classList.toggle('pending', text.endsWith(', pending'));
      if (spot.parentNode.tagName === 'LI' && !'bg'.includes(name[0])) spot.parentNode.hidden = shown === '';
      if (name[0] === 'l') spot.hidden = shown === '';
    }
    if (isChanged) this.mark(spot, 'changed');
  }

  mark(spot, how) {
    spot.classList.add(how);
    this.marked.push(spot);
  }

  // What is shown of a text at a place.
  nameOf(name, text) {
    const [first, second] = numbersOf[placeNumber.get(name)];
    switch (name[0]) {
      case 'r': return registerName(text);
      case 'w': return fieldName(text, addressIn(blockOf(this.run.text(`r${first}`)) ?? 0, second));
      case 'l': return loadName(text, this.isWhole);
      case 'c': return this.wordName(first, second, text);
      case 'f': return text.replace(', pending', ' ..');
      case 's': case 'a': return entryName(text, this.run.addressFor(text));
      case 'q': return queuedName(text);
      case 'm': return commandName(text, first);
      case 'v': return replyName(text);
      default: return text;
    }
  }

  // A frame's word: of one that is still to come the bytes that are there.
  wordName(frame, i, text) {
    const slot = this.waitsFor.get(frame);
    const there = slot === undefined ? '1111' : bytesThere(this.run.text(`w${slot}.${i}`));
    return masked(there, text.slice(0, 8), '..') + text.slice(8);
  }

  // A word that came is another one also if its digits are those that stood there.
  markCame() {
    for (const k of this.run.changed()) {
      const [slot, i] = numbersOf[k];
      if (lettersOf[k] !== 'w' || bytesThere(this.run.before(places[k])) === '1111' || bytesThere(this.run.texts[k]) !== '1111') continue;
      const spot = this.spots.get(`c${frameOf(this.run.before(`r${slot}`))}.${i}`);
      if (spot && spot.textContent !== '' && !spot.classList.contains('changed')) this.mark(spot, 'changed');
    }
  }

  // A word of a frame. The bytes that memory doesn't have yet stand out.
  drawWord(spot, text) {
    const { word, mask } = cellParts(text);
    spot.textContent = '';
    for (const k of range(4)) {
      const digits = word.slice(2 * k, 2 * k + 2);
      spot.append(mask[k] === '1' ? element('span', 'dirty', digits) : digits);
    }
    if (mask === '0000') spot.removeAttribute('aria-label');
    else spot.setAttribute('aria-label', text);
  }

  drawRegister(slot) {
    const isFree = [`r${slot}`, ...range(sizes.blockWords).map((i) => `w${slot}.${i}`)]
      .every((name) => ['', 'free'].includes(this.drawn.get(name)));
    find(`register-${slot}`).classList.toggle('free', isFree);
  }

  // A bank in which nothing stands. If there are many banks, it is folded away.
  drawBank(bank) {
    const box = find(`bank-${bank}`);
    box.classList.toggle('empty', !box.querySelector('li:not([hidden]), .stored .entry'));
  }

  // Who asks: the event at hand, with its address cut into its parts.
  drawRequest() {
    const event = this.run.steps[this.run.now][0];
    const box = find('request');
    box.textContent = '';
    if (event === '') return;
    box.append(element('b', '', requestName(event)));
    const asked = askedWord(event);
    if (asked !== null) {
      const { block, set, word, bank } = cut(asked);
      for (const part of [`word ${asked} =`, `block ${block}`, `set ${set}`, `word +${word}`, `bank ${bank}`]) box.append(element('span', '', part));
    }
    const evicted = /^evict (\\d+)$/.exec(event);
    if (evicted) box.append(element('span', '', `set ${Number(evicted[1]) % sizes.sets}`));
  }

  // A word of memory that changed is shown at its bank too.
  drawStored(changed) {
    for (const bank of range(sizes.banks)) find(`bank-${bank}`).querySelector('.stored').textContent = '';
    for (const name of changed) {
      if (name[0] !== 'b') continue;
      const at = Number(name.slice(1));
      const made = element('span', 'entry', `memory, word ${at}: ${this.run.text(name)}`);
      find(`bank-${at % sizes.banks}`).querySelector('.stored').append(made);
      this.mark(made, 'changed');
    }
  }

  // The words that a hit reads: the frame's, and the input stack's if it stands there.
  markRead() {
    for (const name of this.read()) if (this.spots.has(name)) this.mark(this.spots.get(name), 'read');
  }

  read() {
    const [event, answer, words] = this.run.steps[this.run.now];
    if (!event.startsWith('load') || answer !== 'accepted' || !words.startsWith('a hit')) return [];
    const { block, word } = cut(askedWord(event));
    const frame = range(sizes.frames).find((it) => /^block (\\d+)/.exec(this.run.text(`f${it}`))?.[1] === String(block));
    const slot = range(sizes.registers).find((it) => this.run.text(`r${it}`).startsWith(`valid, block ${block},`));
    const inStack = slot !== undefined && this.run.text(`w${slot}.${word}`).startsWith('in stack');
    const entry = range(sizes.stack).find((at) => this.run.text(`s${at}`).startsWith(`register ${slot}, word ${word}:`));
    return inStack ? [`c${frame}.${word}`, `s${entry}`] : [`c${frame}.${word}`];
  }

  // A list that is longer than its box is moved to what is marked in it: all of it, or as much as fits from the first on.
  showMarked() {
    for (const box of [...document.querySelectorAll('.scrolls')].reverse()) {
      const marked = box.scrollHeight > box.clientHeight ? [...box.querySelectorAll('.changed, .read')] : [];
      const rects = marked.map((it) => it.getBoundingClientRect()).filter((it) => it.height > 0);
      if (rects.length === 0) continue;
      const outer = box.getBoundingClientRect();
      const below = Math.max(...rects.map((it) => it.bottom)) + 4 - outer.bottom;
      if (below > 0) box.scrollTop += below;
      const above = outer.top + 4 - Math.min(...rects.map((it) => it.top)) + Math.max(0, below);
      if (above > 0) box.scrollTop -= above;
    }
  }
}

// ---- arrows

// What moved in the step at hand: pairs of boxes, with what went from one to the other.
function movesOf(run) {
  const [event, answer, words] = run.steps[run.now];
  const kind = event.split(' ')[0];
  if (run.now === 0 || answer === 'nothing' || answer.startsWith('refused')) return [];
  const changed = run.changed().map((k) => places[k]);
  const of = (letters) => changed.filter((name) => letters.includes(name[0]));
  const moves = { load: asked, store: asked, prefetch: asked, evict: evicted, drain: drained, serve: served,
    arrive: arrived, process: processed, take: taken };
  return moves[kind](run, event, of, words);
}
function dirtyOut(run, of) {
  const count = of('q').filter((name) => run.text(name) !== '').length;
  return count > 0 ? [['frames', 'queue', count === 1 ? '1 dirty word' : `${count} dirty words`]] : [];
}
function asked(run, event, of, words) {
  const at = askedWord(event);
  const found = [];
  const tag = /^load (\\d+)/.exec(event);
  if (of('rwl').length > 0) found.push(['asks', 'registers', tag ? `t${tag[1]}, word ${at}` : `word ${at}`]);
  if (of('m').length > 0) found.push(['registers', 'banks', `reads of block ${cut(at).block}`]);
  if (of('v').length > 0) found.push(['asks', 'frames', `t${tag[1]}, word ${at}`], ['frames', 'ready', 'hit']);
  if (event.startsWith('store')) found.push(['asks', 'frames', `word ${at}`]);
  if (words.startsWith('a miss')) found.push(...dirtyOut(run, of));
  return found;
}
function evicted(run, event, of) {
  return dirtyOut(run, of);
}
function drained(run) {
  return [['queue', 'banks', queuedName(run.before('q0'))]];
}
function served(run, event) {
  const bank = Number(event.split(' ')[1]);
  const command = run.before(`m${bank}.0`);
  return [[`commands ${bank}`, command.startsWith('read') ? `answers ${bank}` : `memory ${bank}`, '']];
}
function arrived(run, event) {
  const [, bank, place] = event.split(' ');
  const text = run.before(`a${bank}.${place}`);
  return [[`bank ${bank}`, 'stack', entryName(text, run.addressFor(text))]];
}
function processed(run, event, of) {
  const text = run.before(`s${event.split(' ')[1]}`);
  const [slot] = ownerOf(text);
  const found = [];
  if (run.before(`r${slot}`).startsWith('valid')) found.push(['stack', 'frames', `word ${run.addressFor(text)}`]);
  const loads = of('v').length;
  if (loads > 0) found.push(['registers', 'ready', loads === 1 ? '1 load' : `${loads} loads`]);
  return found;
}
function taken(run, event) {
  return [['ready', 'asks', replyName(run.before(`v${event.split(' ')[1]}`))]];
}

// The ways that are always there, and where each leaves one box and reaches the other, as parts of their sides.
const WAYS = [
  ['asks', 'frames'], ['asks', 'registers'], ['frames', 'ready'], ['ready', 'asks'], ['registers', 'banks'],
  ['registers', 'ready'], ['frames', 'queue'], ['stack', 'frames'], ['banks', 'stack'], ['queue', 'banks'],
];

class Arrows {
  constructor(svg) {
    this.svg = svg;
  }

  make(kind, attributes, text) {
    const made = document.createElementNS('http://www.w3.org/2000/svg', kind);
    for (const [name, value] of Object.entries(attributes)) made.setAttribute(name, value);
    if (text) made.textContent = text;
    this.svg.append(made);
    return made;
  }

  box(name) {
    const [id, bank] = name.split(' ');
    const inner = { commands: '.commands', answers: '.answers', memory: '.stored' };
    const it = inner[id] ? find(`bank-${bank}`).querySelector(inner[id]) : find(bank === undefined ? id : `${id}-${bank}`);
    const around = this.svg.getBoundingClientRect();
    const r = it.getBoundingClientRect();
    return { x: r.x - around.x, y: r.y - around.y, w: r.width, h: r.height, r: r.right - around.x, b: r.bottom - around.y };
  }

  // The corners of a way, and where its label stands.
  corners(from, to) {
    const a = this.box(from);
    const z = this.box(to);
    const down = (x) => ({ points: [[x, a.b], [x, z.y]], at: [x, (a.b + z.y) / 2] });
    const up = (x) => ({ points: [[x, a.y], [x, z.b]], at: [x, (a.y + z.b) / 2] });
    switch (`${from.split(' ')[0]} ${to.split(' ')[0]}`) {
      case 'asks frames': return { points: [[a.r - 90, a.b], [a.r - 90, z.y - 12], [z.x + 60, z.y - 12], [z.x + 60, z.y]], at: [a.r, z.y - 12] };
      case 'asks registers': return down(a.x + 120);
      case 'frames ready': return up(a.x + 260);
      case 'ready asks': return { points: [[a.x, a.y + 14], [z.r, a.y + 14]], at: [a.x + 8, a.b + 11] };
      case 'registers banks': return down(a.x + 140);
      case 'registers ready': return { points: [[a.r, a.y + 30], [a.r + 13, a.y + 30], [a.r + 13, z.b + 6], [z.x + 20, z.b + 6], [z.x + 20, z.b]], at: [z.x + 70, z.b + 11] };
      case 'frames queue': return down(z.x + z.w / 2);
      case 'stack frames': return up(a.x + a.w / 2);
      case 'banks stack': case 'bank stack': return this.rise(a, z);
      case 'queue banks': return down(a.x + a.w / 2);
      case 'commands answers': return { points: [[a.x + a.w - 6, a.y + 8], [z.x + 4, z.y + 8]], at: null };
      default: return { points: [[a.x + 20, a.y], [z.x + 6, z.b - 2]], at: null };
    }
  }

  // From a bank to the stack, which needn't stand above it.
  rise(a, z) {
    const to = z.x + z.w / 2;
    const from = a.w > z.w * 2 ? to : a.x + a.w / 2;
    const middle = (a.y + z.b) / 2;
    return { points: [[from, a.y], [from, middle], [to, middle], [to, z.b]], at: [to, middle] };
  }

  // A way with its head.
  way(from, to, moved) {
    const { points, at } = this.corners(from, to);
    const [[x0, y0], [x1, y1]] = points.slice(-2);
    const length = Math.hypot(x1 - x0, y1 - y0) || 1;
    const [ux, uy] = [(x1 - x0) / length, (y1 - y0) / length];
    const size = moved ? 9 : 6;
    const head = [[-uy, ux], [uy, -ux]].map(([px, py]) => [x1 - size * ux + size * 0.7 * px, y1 - size * uy + size * 0.7 * py]);
    const line = points.map(([x, y]) => `${x},${y}`).join(' L');
    this.make('path', { d: `M${line} M${head[0].join(',')} L${x1},${y1} L${head[1].join(',')}`, class: moved ? 'moved' : '' });
    return at;
  }

  label(text, [x, y]) {
    const rect = this.make('rect', { rx: 3, height: 18 });
    const words = this.make('text', { x: x + 10, y: y + 5 }, text);
    const width = words.getComputedTextLength() + 8;
    const most = this.svg.getBoundingClientRect().width - width - 2;
    const left = Math.max(0, Math.min(most, x + 6));
    words.setAttribute('x', left + 4);
    for (const [name, value] of Object.entries({ x: left, y: y - 9, width })) rect.setAttribute(name, value);
  }

  draw(moves) {
    this.svg.textContent = '';
    if (getComputedStyle(this.svg).display === 'none') return;
    for (const [from, to] of WAYS) this.way(from, to, false);
    const labels = moves.map(([from, to, text]) => [text, this.way(from, to, true)]);
    for (const [text, at] of labels) if (text && at) this.label(text, at);
  }
}
</script>
<script>
'use strict';

const run = new Run(steps);
const story = new Story(run);
const line = new Line(find('line'), run, story);
const picture = new Picture(run);
const arrows = new Arrows(find('arrows'));
let timer = 0;

function draw() {
  const [event, answer, words, recorded] = run.steps[run.now];
  find('number').textContent = run.now;
  find('event').textContent = run.now > 0 ? `${event} -> ${answer}` : 'start';
  find('recorded').textContent = recorded && `recorded: ${recorded}`;
  find('words').textContent = words;
  find('slider').value = run.now;
  picture.draw();
  arrows.draw(movesOf(run));
  line.draw();
  document.body.dataset.step = run.now;
}
function go(to) {
  run.go(to);
  draw();
}
function stop() {
  clearInterval(timer);
  timer = 0;
  find('play').textContent = 'play';
}
function play() {
  if (timer) { stop(); return; }
  if (run.now === run.last) go(0);
  find('play').textContent = 'stop';
  timer = setInterval(() => { if (run.now < run.last) go(run.now + 1); else stop(); }, 900);
}
function move(to) { stop(); go(to); }

function toggle(button, box) {
  const isShown = find(box).hidden;
  find(box).hidden = !isShown;
  find(button).setAttribute('aria-pressed', isShown);
  line.resize();
  arrows.draw(movesOf(run));
}
const switches = { 'show-memory': 'memory-box', 'show-lines': 'lines-box', 'show-keys': 'keys' };
for (const [button, box] of Object.entries(switches)) find(button).onclick = () => toggle(button, box);

function showValues() {
  picture.isWhole = !picture.isWhole;
  find('show-values').setAttribute('aria-pressed', picture.isWhole);
  draw();
}
find('show-values').onclick = showValues;

find('to-first').onclick = () => move(0);
find('back').onclick = () => move(run.now - 1);
find('next').onclick = () => move(run.now + 1);
find('to-last').onclick = () => move(run.last);
find('play').onclick = play;
find('slider').oninput = () => move(Number(find('slider').value));
find('wider').onclick = () => line.zoom(1.25);
find('narrower').onclick = () => line.zoom(0.8);
find('line').onclick = (event) => move(line.stepAt(event.offsetX));
find('line').addEventListener('wheel', (event) => {
  if (event.ctrlKey) return;
  event.preventDefault();
  line.pan((event.deltaX + event.deltaY) / 20);
}, { passive: false });

const keys = {
  ArrowLeft: () => move(run.now - 1), ArrowRight: () => move(run.now + 1),
  Home: () => move(0), End: () => move(run.last), ' ': play,
  PageUp: () => move(run.now - 10), PageDown: () => move(run.now + 10),
  '+': () => line.zoom(1.25), '-': () => line.zoom(0.8),
  m: () => toggle('show-memory', 'memory-box'), r: () => toggle('show-lines', 'lines-box'), v: showValues,
};
document.addEventListener('keydown', (event) => {
  if (event.ctrlKey || event.altKey || event.metaKey || !keys[event.key]) return;
  if (event.key === ' ' && event.target.tagName === 'BUTTON') return;
  event.preventDefault();
  keys[event.key]();
});
function follow() {
  const wanted = location.hash.slice(1);
  go(wanted === 'end' ? run.last : Number(wanted) || 0);
}
window.addEventListener('hashchange', follow);
window.addEventListener('resize', () => { line.resize(); arrows.draw(movesOf(run)); });
matchMedia('(prefers-color-scheme: dark)').addEventListener('change', () => line.resize());
// (on paper the line of time is dark on white too)
for (const [kind, isPaper] of [['beforeprint', true], ['afterprint', false]]) {
  window.addEventListener(kind, () => {
    document.documentElement.classList.toggle('paper', isPaper);
    line.resize();
  });
}
find('slider').max = run.last;
find('last').textContent = run.last;
follow();
line.resize();
</script>
</body>
</html>
";
